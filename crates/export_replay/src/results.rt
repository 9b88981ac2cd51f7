// The cases of the functions that have no place: the answer is the result alone.
use crate::case::Case;
use crate::print;
use std::io::Result;

#[inline(never)]
pub(crate) fn answer(rt: &impl Print, c: &Case) -> Result<()> {
    match c.function {
        9 => print!(rt;
            " {}",
            haspeljo::haspeljo_zigzag_encode(c.u32(0).cast_signed())
        ),
        10 => print!(rt; " {}", haspeljo::haspeljo_zigzag_decode(c.u32(0))),
        11 => print!(rt;
            " {}",
            haspeljo::haspeljo_zigzag_encode_i64(c.u64(0).cast_signed())
        ),
        12 => print!(rt; " {}", haspeljo::haspeljo_zigzag_decode_i64(c.u64(0))),
        13 => print!(rt; " {}", haspeljo::haspeljo_is_utf8(c.bytes)),
        14 => print!(rt;
            " {}",
            haspeljo::haspeljo_is_bogus_v4(c.u32(0), c.u16(1), c.u8(2))
        ),
        15 => print!(rt;
            " {}",
            haspeljo::haspeljo_is_bogus_v6(c.u64(0), c.u64(1), c.u16(2), c.u8(3))
        ),
        16 => {
            let mut r = [0; 32];
            haspeljo::haspeljo_blake2b256(c.bytes, &mut r);
            print::bytes(rt, &r)
        }
        _ => {
            let mut r = [0; 4];
            haspeljo::haspeljo_frame_check(c.bytes, &mut r);
            print::bytes(rt, &r)
        }
    }
}
