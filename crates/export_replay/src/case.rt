// A case: a function's number and its input, which is numbers of eight bytes each, little-endian, then bytes.
// oracle/README.md has the table of the functions and their arguments.
ghost use Rattle.std.specs.Prelude.{◌+◌, ◌<◌, length, IfSome};

#[derive(Clone, Copy)]
pub(crate) struct Case<'a> {
    pub(crate) function: u8,
    // As many as the function takes, then zeros.
    numbers: [u64; 16],
    pub(crate) bytes: &'a [u8],
}

impl<'a> Case<'a> {
    // The case that s begins with, and what follows it; none where it is not there whole, or is malformed: its function is none that
    // is exported, its numbers are not there, or bytes follow them where none are asked for.
    pub(crate) fn split(s: &'a [u8]) -> Option<(Case<'a>, &'a [u8])>
        ensures { IfSome result (λ r. length r.1.now < length s.now) }
    {
        let (&[function, low, high], rest) = s.split_first_chunk::<3>()?;
        let (input, rest) = rest.split_at_checked(usize::from(u16::from_le_bytes([low, high])))?;
        let (eights, bytes) = input.split_at_checked(8 * count(function)?)?;
        if !has_bytes(function) && !bytes.is_empty() {
            return None;
        }
        let mut numbers = [0; 16];
        for (n, eight) in numbers.iter_mut().zip(eights.as_chunks::<8>().0) {
            *n = u64::from_le_bytes(*eight);
        }
        let case = Case {
            function,
            numbers,
            bytes,
        };
        Some((case, rest))
    }

    // A number; one is taken modulo 2^k where its type has k bits.
    pub(crate) fn u64(&self, i: usize) -> u64
        requires { i < 16 }
    {
        self.numbers[i]
    }

    pub(crate) fn usize(&self, i: usize) -> usize
        requires { i < 16 }
    {
        self.numbers[i] as usize
    }

    pub(crate) fn u32(&self, i: usize) -> u32
        requires { i < 16 }
    {
        (self.numbers[i] & 0xffff_ffff) as u32
    }

    pub(crate) fn u16(&self, i: usize) -> u16
        requires { i < 16 }
    {
        (self.numbers[i] & 0xffff) as u16
    }

    pub(crate) fn u8(&self, i: usize) -> u8
        requires { i < 16 }
    {
        (self.numbers[i] & 0xff) as u8
    }
}

// How many numbers a function takes; none for a number that no exported function has, as 34, `walk`.
fn count(function: u8) -> Option<usize>
    ensures { IfSome result (λ n. n < 17) }
{
    match function {
        0 | 34 | 49.. => None,
        13 | 16..=19 => Some(0),
        5 | 7 | 8 | 22 | 24 | 26 | 28 | 29 | 31 => Some(2),
        6 | 14 | 27 | 33 | 35 | 39 | 44 | 47 | 48 => Some(3),
        15 | 36 | 38 | 40..=43 | 45 | 46 => Some(4),
        37 => Some(16),
        _ => Some(1),
    }
}

// Whether bytes may follow the numbers.
fn has_bytes(function: u8) -> bool {
    !matches!(function, 6 | 9..=12 | 14 | 15)
}
