// The tables that entries are written from.

ghost use Rattle.std.specs.Prelude.{◌≡◌, true, ltb};
ghost use Rattle.wire.specs.Bytes.{every};

// Rows of numbers, and the lent buffer beside them. The ghost field is what the buffer's type says: written sessions
// rest on it.
#[derive(Clone, Copy)]
pub struct Tables<'a> {
    pub entries: &'a [u32],
    pub features: &'a [u32],
    pub buffer: &'a [u8],
    ghost bytes: { every (λ b. ltb b 256) buffer.now ≡ true },
}
