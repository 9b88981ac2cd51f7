// The message word schedule SIGMA (RFC 7693, 2.7). How it is kept is known here alone.
ghost use Rattle.std.specs.Prelude.{◌≡◌, ◌<◌};
ghost use Rattle.blake2b_compress.specs.Parts.{kept, selected};

// Ten rows of sixteen, one after the other.
#[derive(Drop)]
pub(crate) struct Schedule {
    rows: [u8; 160],
    ghost is_sigma: { rows ≡ kept },
}

const SIGMA: [u8; 160] = [
    0, 1, 2, 3, 4, 5, 6, 7, 8, 9, 10, 11, 12, 13, 14, 15, // row 0
    14, 10, 4, 8, 9, 15, 13, 6, 1, 12, 0, 2, 11, 7, 5, 3, // row 1
    11, 8, 12, 0, 5, 2, 15, 13, 10, 14, 3, 6, 7, 1, 9, 4, // row 2
    7, 9, 3, 1, 13, 12, 11, 14, 2, 6, 5, 10, 4, 0, 15, 8, // row 3
    9, 0, 5, 7, 2, 4, 10, 15, 14, 1, 11, 12, 6, 8, 3, 13, // row 4
    2, 12, 6, 10, 0, 11, 8, 3, 4, 13, 7, 5, 15, 14, 1, 9, // row 5
    12, 5, 1, 15, 14, 13, 4, 10, 0, 7, 6, 3, 9, 2, 8, 11, // row 6
    13, 11, 7, 14, 12, 1, 3, 9, 5, 0, 15, 4, 8, 6, 2, 10, // row 7
    6, 15, 14, 9, 11, 3, 0, 8, 12, 2, 13, 7, 1, 4, 10, 5, // row 8
    10, 2, 8, 4, 7, 6, 1, 5, 15, 11, 9, 14, 3, 12, 13, 0, // row 9
];

impl Schedule {
    pub(crate) fn new() -> Self {
        Schedule { rows: SIGMA }
    }

    // m[s[j]], with s[0..15] := SIGMA[i mod 10].
    pub(crate) fn select(&self, m: &[u64; 16], i: usize, j: usize) -> u64
        requires { j < 16 }
        ensures { result ≡ selected m.now i j }
    {
        let k = self.rows[i % 10 * 16 + j] as usize;
        m[k]
    }
}
