// Message bodies for C, as haspeljo::bodies.
ghost use Rattle.std.specs.Prelude.{length};
ghost use Rattle.wire.specs.Reader.{map_answer};
ghost use Rattle.handshake_read.specs.Answers.{peer_spec_of};
ghost use Rattle.messages.specs.Message.{payload_after, peers_body, message};
ghost use Rattle.messages_inventory_read.specs.Parts.{id_at};
ghost use Rattle.messages_response_read.specs.Parts.{payload_at};
ghost use Rattle.messages_inventory_read.specs.Answers.{id_of};
ghost use Rattle.messages_response_read.specs.Answers.{payload_of, payload_sum};
ghost use Rattle.messages_peers_read.specs.Parts.{entry_at};
ghost use Rattle.messages_read.specs.Answers.{message_of};
ghost use Rattle.export_arrays.specs.Networks.{network_of};
ghost use Rattle.export_arrays.specs.Entries.{entry_next};
ghost use Rattle.export_arrays.specs.Messages.{message_numbers, id_only, payload_next, payload_total};
ghost use Rattle.haspeljo.specs.Results.{ReaderLeaves};

#[unsafe(no_mangle)]
pub extern "C" fn haspeljo_from_frame(
    body: &[u8],
    mainnet: u8,
    cap: usize,
    code: u8,
    r: &mut [u64; 5],
) -> u8
    ensures { ReaderLeaves message_numbers (map_answer (message_of (network_of mainnet) body.now) (message cap code body.now 0)) result
        r.old r.new }
{
    haspeljo::bodies::haspeljo_from_frame(body, mainnet, cap, code, r)
}

#[unsafe(no_mangle)]
pub extern "C" fn haspeljo_parse_peers_body(
    body: &[u8],
    mainnet: u8,
    cap: usize,
    r: &mut [u64; 5],
) -> u8
    ensures { ReaderLeaves message_numbers (map_answer (message_of (network_of mainnet) body.now) (peers_body cap body.now 0)) result
        r.old r.new }
{
    haspeljo::bodies::haspeljo_parse_peers_body(body, mainnet, cap, r)
}

#[unsafe(no_mangle)]
pub extern "C" fn haspeljo_entry_by_index(
    body: &[u8],
    cap: usize,
    index: usize,
    r: &mut [u64; 15],
) -> u8
    ensures { ReaderLeaves entry_next (map_answer peer_spec_of (entry_at cap index body.now)) result
        r.old r.new }
{
    haspeljo::bodies::haspeljo_entry_by_index(body, cap, index, r)
}

#[unsafe(no_mangle)]
pub extern "C" fn haspeljo_id_by_index(body: &[u8], index: usize, r: &mut [u64; 1]) -> u8
    ensures { ReaderLeaves id_only (map_answer id_of (id_at index body.now)) result r.old r.new }
{
    haspeljo::bodies::haspeljo_id_by_index(body, index, r)
}

#[unsafe(no_mangle)]
pub extern "C" fn haspeljo_read_payload(
    body: &[u8],
    at: usize,
    total: usize,
    r: &mut [u64; 5],
) -> u8
    ensures { ReaderLeaves payload_total (map_answer (payload_sum total) (payload_after (length body.now) total body.now at)) result
        r.old r.new }
{
    haspeljo::bodies::haspeljo_read_payload(body, at, total, r)
}

#[unsafe(no_mangle)]
pub extern "C" fn haspeljo_payload_by_index(body: &[u8], index: usize, r: &mut [u64; 4]) -> u8
    ensures { ReaderLeaves payload_next (map_answer payload_of (payload_at index body.now)) result
        r.old r.new }
{
    haspeljo::bodies::haspeljo_payload_by_index(body, index, r)
}
