// The session walk for C, as haspeljo::sessions.
ghost use Rattle.walk.specs.Session.{session_step};
ghost use Rattle.walk_read.specs.Steps.{step_of};
ghost use Rattle.walk_by_index.specs.InStream.{entry_in_stream, id_in_stream, payload_in_stream};
ghost use Rattle.export_arrays.specs.Networks.{network_of};
ghost use Rattle.export_arrays.specs.Entries.{stream_entry_next};
ghost use Rattle.export_arrays.specs.Messages.{stream_id_only, stream_payload_next};
ghost use Rattle.export_arrays.specs.Steps.{StepLeaves};
ghost use Rattle.haspeljo.specs.Results.{ReaderLeaves};

#[unsafe(no_mangle)]
pub extern "C" fn haspeljo_step(
    s: &[u8],
    at: usize,
    mainnet: u8,
    cap: usize,
    r: &mut [u64; 11],
) -> u8
    ensures { StepLeaves (step_of (network_of mainnet) s.now (session_step (network_of mainnet) cap s.now at)) result
        r.old r.new }
{
    haspeljo::sessions::haspeljo_step(s, at, mainnet, cap, r)
}

#[unsafe(no_mangle)]
pub extern "C" fn haspeljo_entry_in_stream(
    s: &[u8],
    start: usize,
    len: usize,
    cap: usize,
    index: usize,
    r: &mut [u64; 15],
) -> u8
    ensures { ReaderLeaves stream_entry_next (entry_in_stream cap index s.now (record { start = record { 0 = start }; len = len })) result
        r.old r.new }
{
    haspeljo::sessions::haspeljo_entry_in_stream(s, start, len, cap, index, r)
}

#[unsafe(no_mangle)]
pub extern "C" fn haspeljo_id_in_stream(
    s: &[u8],
    start: usize,
    len: usize,
    index: usize,
    r: &mut [u64; 1],
) -> u8
    ensures { ReaderLeaves stream_id_only (id_in_stream index s.now (record { start = record { 0 = start }; len = len })) result
        r.old r.new }
{
    haspeljo::sessions::haspeljo_id_in_stream(s, start, len, index, r)
}

#[unsafe(no_mangle)]
pub extern "C" fn haspeljo_payload_in_stream(
    s: &[u8],
    start: usize,
    len: usize,
    index: usize,
    r: &mut [u64; 4],
) -> u8
    ensures { ReaderLeaves stream_payload_next (payload_in_stream index s.now (record { start = record { 0 = start }; len = len })) result
        r.old r.new }
{
    haspeljo::sessions::haspeljo_payload_in_stream(s, start, len, index, r)
}
