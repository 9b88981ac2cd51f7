// Frames for Rust and C.
ghost use Rattle.wire.specs.Reader.{map_answer};
ghost use Rattle.frame.specs.Frame.{frame};
ghost use Rattle.frame_read.specs.Answers.{frame_of};
ghost use Rattle.export_arrays.specs.Networks.{network_of};
ghost use Rattle.haspeljo.specs.Results.{ReaderLeaves};
ghost use Rattle.haspeljo.specs.Frames.{frame_next};

use types::StreamPlace;

// The frame at a place: r is its code, the place and length of its body, and the next place.
pub fn haspeljo_decode(s: &[u8], at: usize, mainnet: u8, r: &mut [u64; 4]) -> u8
    ensures { ReaderLeaves frame_next (map_answer frame_of (frame (network_of mainnet) s.now at)) result
        r.old r.new }
{
    match frame_read::decode(s, crate::network_of(mainnet), StreamPlace(at)) {
        Ok((f, next)) => {
            *r = [
                f.code as u64,
                f.body.start.0 as u64,
                f.body.len as u64,
                next.0 as u64,
            ];
            0
        }
        Err(m) => m.number(),
    }
}
