// A frame's bytes.
ghost use Rattle.std.specs.Prelude.{◌≡◌, ◌∷◌, ◌++◌, ◌+◌, ◌≤◌, ◌<◌, length, take, drop};
ghost use Rattle.flash.specs.Bytes.{u16le};
ghost use Rattle.frame.specs.Frame.{value_max, buffer_len, check_len, overhead};
ghost use Rattle.frame.specs.Frame.{sealed, buffer, encode};
ghost use Rattle.frame.specs.Code.{frame_of};

use crate::{
    ABORT_KIND, BODY_AT, BUFFER_LEN, CLOSED_KIND, COMMIT_KIND, DELETE_KIND, Edition, FINISH, Head,
    Host, KIND_AT, ObjectId, PUT_KIND, RESET_KIND, SETTLED_KIND, VALUE_MAX, check_len,
};
use crc::crc32;

// The check and the finish byte after m bytes.
fn seal(g: &mut [u8], edition: Edition, m: usize)
    requires { m + check_len edition < length g.old }
    ensures { g.new ≡ sealed edition (take m g.old) ++ drop (m + check_len edition + 1) g.old }
{
    match edition {
        Edition::First => g[m] = FINISH,
        Edition::Second => {
            let check = crc32(&g[..m]).to_le_bytes();
            g[m..m + 4].copy_from_slice(&check);
            g[m + 4] = FINISH;
        }
    }
}

// The frame of a kind whose body is fields and a value, and zeros after it.
fn assemble(edition: Edition, kind: u8, fields: &[u8], value: &[u8]) -> [u8; BUFFER_LEN]
    requires { (length fields.now ≤ 3) × (length value.now ≤ value_max) }
    ensures { result ≡ buffer (sealed edition (u16le (overhead edition + length (fields.now ++ value.now)) ++ (u16le kind ++ (fields.now ++ value.now)))) }
{
    let start = BODY_AT + fields.len();
    let end = start + value.len();
    let mut frame = [0; BUFFER_LEN];
    frame[0] = end as u8 + check_len(edition) + 1;
    frame[KIND_AT] = kind;
    frame[BODY_AT..start].copy_from_slice(fields);
    frame[start..end].copy_from_slice(value);
    seal(&mut frame, edition, end);
    frame
}

// The host and the id of a put or a delete.
fn change_fields(host: Host, id: ObjectId) -> [u8; 3]
    ensures { result ≡ host.0 ∷ u16le id.0 }
{
    let [low, high] = id.0.to_le_bytes();
    [host.0, low, high]
}

// The frame with this head and this value, of which at most VALUE_MAX bytes are taken, and zeros after it.
// The head's own count is not looked at.
pub fn encode_frame(edition: Edition, head: Head, value: &[u8]) -> [u8; BUFFER_LEN]
    ensures { result ≡ buffer (encode edition (frame_of head (take value_max value.now))) }
{
    let value = flash::front(value, VALUE_MAX);
    match head {
        Head::Put(host, id, _) => assemble(edition, PUT_KIND, &change_fields(host, id), value),
        Head::Delete(host, id) => assemble(edition, DELETE_KIND, &change_fields(host, id), b""),
        Head::Commit(Host(host)) => assemble(edition, COMMIT_KIND, &[host], b""),
        Head::Abort(Host(host)) => assemble(edition, ABORT_KIND, &[host], b""),
        Head::Settled(ObjectId(id), _) => assemble(edition, SETTLED_KIND, &id.to_le_bytes(), value),
        // what stands where a closed frame's check was is part of what it ignores
        Head::Closed(_) => assemble(Edition::First, CLOSED_KIND, b"", value),
        Head::Reset => assemble(edition, RESET_KIND, b"", b""),
    }
}
