// Frames for C, as haspeljo::frames.
ghost use Rattle.wire.specs.Reader.{map_answer};
ghost use Rattle.frame.specs.Frame.{frame};
ghost use Rattle.frame_read.specs.Answers.{frame_of};
ghost use Rattle.export_arrays.specs.Networks.{network_of};
ghost use Rattle.haspeljo.specs.Results.{ReaderLeaves};
ghost use Rattle.haspeljo.specs.Frames.{frame_next};

#[unsafe(no_mangle)]
pub extern "C" fn haspeljo_decode(s: &[u8], at: usize, mainnet: u8, r: &mut [u64; 4]) -> u8
    ensures { ReaderLeaves frame_next (map_answer frame_of (frame (network_of mainnet) s.now at)) result
        r.old r.new }
{
    haspeljo::frames::haspeljo_decode(s, at, mainnet, r)
}
