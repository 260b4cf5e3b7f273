// CRC-32, two bytes at a time: four bits each from a table of their own, so that no lookup waits for another.
#![tactic(auto)]

ghost use Rattle.std.specs.Int.Bits.{bit_xor};
ghost use Rattle.std.specs.Prelude.{◌≡◌, ◌*◌, ◌≤◌};
ghost use Rattle.crc.specs.Crc.{crc32_of, shift32, shifted32, times};

// What the lowest four bits leave after four shifts, after eight, twelve and sixteen.
static LEFT: [[u32; 16]; 4] = [
    [
        0x0000_0000,
        0x1DB7_1064,
        0x3B6E_20C8,
        0x26D9_30AC,
        0x76DC_4190,
        0x6B6B_51F4,
        0x4DB2_6158,
        0x5005_713C,
        0xEDB8_8320,
        0xF00F_9344,
        0xD6D6_A3E8,
        0xCB61_B38C,
        0x9B64_C2B0,
        0x86D3_D2D4,
        0xA00A_E278,
        0xBDBD_F21C,
    ],
    [
        0x0000_0000,
        0x7707_3096,
        0xEE0E_612C,
        0x9909_51BA,
        0x076D_C419,
        0x706A_F48F,
        0xE963_A535,
        0x9E64_95A3,
        0x0EDB_8832,
        0x79DC_B8A4,
        0xE0D5_E91E,
        0x97D2_D988,
        0x09B6_4C2B,
        0x7EB1_7CBD,
        0xE7B8_2D07,
        0x90BF_1D91,
    ],
    [
        0x0000_0000,
        0x4AC2_1251,
        0x9584_24A2,
        0xDF46_36F3,
        0xF079_4F05,
        0xBABB_5D54,
        0x65FD_6BA7,
        0x2F3F_79F6,
        0x3B83_984B,
        0x7141_8A1A,
        0xAE07_BCE9,
        0xE4C5_AEB8,
        0xCBFA_D74E,
        0x8138_C51F,
        0x5E7E_F3EC,
        0x14BC_E1BD,
    ],
    [
        0x0000_0000,
        0x191B_3141,
        0x3236_6282,
        0x2B2D_53C3,
        0x646C_C504,
        0x7D77_F445,
        0x565A_A786,
        0x4F41_96C7,
        0xC8D9_8A08,
        0xD1C2_BB49,
        0xFAEF_E88A,
        0xE3F4_D9CB,
        0xACB5_4F0C,
        0xB5AE_7E4D,
        0x9E83_2D8E,
        0x8798_1CCF,
    ],
];

// Four shifts, N times: each moves the bits above down, and what the lowest four leave at the end comes from the table.
fn shifts<const N: usize>(x: u32) -> u32
    requires { N ≤ 4 }
    ensures { result ≡ times (N * 4) shift32 x }
{
    let mut above = x;
    let mut left = 0;
    for table in LEFT[..N].iter().rev() {
        left ^= table[above as usize % 16];
        above >>= 4;
    }
    above ^ left
}

// One byte.
fn step32(c: u32, b: u8) -> u32
    ensures { result ≡ shifted32 (bit_xor c b) }
{
    shifts::<2>(c ^ u32::from(b))
}

// Two bytes.
fn two32(c: u32, a: u8, b: u8) -> u32
    ensures { result ≡ shifted32 (bit_xor (shifted32 (bit_xor c a)) b) }
{
    shifts::<4>(c ^ u32::from(u16::from_le_bytes([a, b])))
}

// All bytes, from all ones, inverted at the end.
pub fn crc32(s: &[u8]) -> u32
    ensures { result ≡ crc32_of s.now }
{
    let mut c = u32::MAX;
    let pairs = s.chunks_exact(2);
    let last = pairs.remainder();
    for pair in pairs {
        c = two32(c, pair[0], pair[1]);
    }
    for byte in last {
        c = step32(c, *byte);
    }
    !c
}
