// Tables of u32 and strings of bytes behind the numbers of an input: each has its length before it, and this and each number of a table are four
// bytes, little-endian.

// The most numbers that a table has.
pub(crate) const MOST: usize = 1_206;

// The table that s begins with, stored from the start of t on, and what follows it. It has as many numbers as its length says and are there.
pub(crate) fn table<'a, 't>(s: &'a [u8], t: &'t mut [u32; MOST]) -> (&'t [u32], &'a [u8]) {
    let (len, rest) = length(s);
    let (fours, rest) = rest.split_at(4 * len.min(rest.len() / 4).min(MOST));
    let (fours, _) = fours.as_chunks::<4>();
    for (n, four) in t.iter_mut().zip(fours) {
        *n = u32::from_le_bytes(*four);
    }
    (&t[..fours.len()], rest)
}

// The string that s begins with, and what follows it. It has as many bytes as its length says and are there.
pub(crate) fn string(s: &[u8]) -> (&[u8], &[u8]) {
    let (len, rest) = length(s);
    rest.split_at(len.min(rest.len()))
}

// The length that s begins with, and what follows it; where its bytes are not there, 0 and nothing.
fn length(s: &[u8]) -> (usize, &[u8]) {
    match s.split_first_chunk::<4>() {
        Some((four, rest)) => (u32::from_le_bytes(*four) as usize, rest),
        None => (0, &[]),
    }
}
