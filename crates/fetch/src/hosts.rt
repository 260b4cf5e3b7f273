// A number for each host.
ghost use Rattle.std.specs.Prelude.{◌≡◌, get_or, set};

use frame::Host;

// A host's number; 0 for a host that isn't there.
pub fn of_host(numbers: [u16; 4], host: Host) -> u16
    ensures { result ≡ get_or numbers host.0 0 }
{
    flash::get_or(&numbers, usize::from(host.0), 0)
}

// The numbers with another one for a host. Place by place: with a store at an index that only the run knows, a survey of 4,096 bytes of puts takes 3,999 ns
// in place of 3,414 (a match on the number, as rt lib builds it, 3,882 in place of 3,042). BENCHMARKS' bar is a mount at most 1.3 times plain's, which is
// met by 1.12 to 1.14.
pub fn with_host(mut numbers: [u16; 4], host: Host, at: u16) -> [u16; 4]
    ensures { result ≡ set numbers host.0 at }
{
    let i = host.0;
    if i == 0 {
        numbers[0] = at;
        return numbers;
    }
    if i == 1 {
        numbers[1] = at;
        return numbers;
    }
    if i == 2 {
        numbers[2] = at;
        return numbers;
    }
    if i == 3 {
        numbers[3] = at;
    }
    numbers
}
