// Zigzag (document 01; `vlq.rs`): 0, -1, 1, -2, 2 .. become 0, 1, 2, 3, 4 ..
#![tactic(auto)]

ghost use Rattle.std.specs.Prelude.{◌≡◌};
ghost use Rattle.vlq_zigzag.specs.Zigzag.{zigzag_encode, zigzag_decode};

// C asks for both widths; the narrow functions are the wide ones.
pub fn zigzag_encode(value: i32) -> u32
    ensures { result ≡ zigzag_encode value }
{
    zigzag_encode_i64(value as i64) as u32
}

pub fn zigzag_decode(value: u32) -> i32
    ensures { result ≡ zigzag_decode value }
{
    zigzag_decode_i64(value as u64) as i32
}

// Below 0, -2n - 1 is made of -1 - n, which no n overflows.
pub fn zigzag_encode_i64(value: i64) -> u64
    ensures { result ≡ zigzag_encode value }
{
    if value < 0 {
        2 * ((-1 - value) as u64) + 1
    } else {
        2 * (value as u64)
    }
}

pub fn zigzag_decode_i64(value: u64) -> i64
    ensures { result ≡ zigzag_decode value }
{
    let half = (value / 2) as i64;
    if value % 2 == 0 { half } else { -1 - half }
}
