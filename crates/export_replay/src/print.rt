// The parts of a line of the answers, a space before each.
use std::fmt::Display;
use std::io::Result;

// Standard output, where a write that fails is passed over: what follows is written all the same.
#[derive(Drop)]
pub(crate) struct Output<'a, P>(pub(crate) &'a P);

// Its functions are compiled into none of their callers, so that no room for a text lies on the stack meanwhile.
impl<P: Print> Print for Output<'_, P> {
    #[inline(never)]
    fn print<D: Display + Drop>(&self, value: D) -> Result<()> {
        let _ = self.0.print(value);
        Ok(())
    }

    #[inline(never)]
    fn println<D: Display + Drop>(&self, value: D) -> Result<()> {
        let _ = self.0.println(value);
        Ok(())
    }

    fn write_all(&self, bytes: &[u8]) -> Result<()> {
        let _ = self.0.write_all(bytes);
        Ok(())
    }
}

pub(crate) fn numbers(rt: &impl Print, numbers: &[u64]) -> Result<()> {
    for n in numbers {
        print!(rt; " {n}")?;
    }
    Ok(())
}

// Bytes in hexadecimal, none being `-`: by eight, since each print is a write.
pub(crate) fn bytes(rt: &impl Print, bytes: &[u8]) -> Result<()> {
    if bytes.is_empty() {
        return print!(rt; " -");
    }
    print!(rt; " ")?;
    let mut rest = bytes;
    while let Some((eight, after)) = rest.split_first_chunk::<8>() {
        print!(rt; "{:016x}", u64::from_be_bytes(*eight))?;
        rest = after;
    }
    for b in rest {
        print!(rt; "{b:02x}")?;
    }
    Ok(())
}
