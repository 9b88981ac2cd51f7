// Writers for C, as haspeljo::writers.
ghost use Rattle.handshake.specs.Tables.{tables};
ghost use Rattle.handshake_build.specs.Parts.{config_of};
ghost use Rattle.messages.specs.Writes.{write_get_peers, write_peers, write_modifier_request, write_modifier_response, write_inv, write_sync_info, write_unknown};
ghost use Rattle.export_arrays.specs.Networks.{network_of};
ghost use Rattle.haspeljo.specs.Results.{WriterLeaves};
ghost use Rattle.haspeljo.specs.Configs.{built_from};
ghost use Rattle.haspeljo.specs.Writers.{vlq_writer, short_string_writer, part_writer, entry_writer, handshake_writer, frame_writer, message_writer, build_writer};

#[unsafe(no_mangle)]
pub extern "C" fn haspeljo_write_vlq(out: &mut [u8], at: usize, value: u64, r: &mut [u64; 1]) -> u8
    ensures { WriterLeaves (vlq_writer value) at result
        r.old r.new out.old out.new }
{
    haspeljo::writers::haspeljo_write_vlq(out, at, value, r)
}

#[unsafe(no_mangle)]
pub extern "C" fn haspeljo_write_short_string(
    out: &mut [u8],
    at: usize,
    s: &[u8],
    r: &mut [u64; 1],
) -> u8
    ensures { WriterLeaves (short_string_writer s.now) at result
        r.old r.new out.old out.new }
{
    haspeljo::writers::haspeljo_write_short_string(out, at, s, r)
}

#[unsafe(no_mangle)]
pub extern "C" fn haspeljo_write_part(out: &mut [u8], at: usize, s: &[u8], r: &mut [u64; 1]) -> u8
    ensures { WriterLeaves (part_writer s.now) at result
        r.old r.new out.old out.new }
{
    haspeljo::writers::haspeljo_write_part(out, at, s, r)
}

#[unsafe(no_mangle)]
pub extern "C" fn haspeljo_write_entry(
    out: &mut [u8],
    at: usize,
    index: usize,
    entries: &[u32],
    features: &[u32],
    buffer: &[u8],
    r: &mut [u64; 1],
) -> u8
    ensures { WriterLeaves (entry_writer (tables entries.now features.now buffer.now) index) at result
        r.old r.new out.old out.new }
{
    haspeljo::writers::haspeljo_write_entry(out, at, index, entries, features, buffer, r)
}

#[unsafe(no_mangle)]
pub extern "C" fn haspeljo_write_handshake(
    out: &mut [u8],
    at: usize,
    timestamp: u64,
    index: usize,
    entries: &[u32],
    features: &[u32],
    buffer: &[u8],
    r: &mut [u64; 1],
) -> u8
    ensures { WriterLeaves (handshake_writer timestamp (tables entries.now features.now buffer.now) index) at result
        r.old r.new out.old out.new }
{
    haspeljo::writers::haspeljo_write_handshake(
        out, at, timestamp, index, entries, features, buffer, r,
    )
}

#[unsafe(no_mangle)]
pub extern "C" fn haspeljo_encode(
    out: &mut [u8],
    at: usize,
    mainnet: u8,
    code: u8,
    body: &[u8],
    r: &mut [u64; 1],
) -> u8
    ensures { WriterLeaves (frame_writer (network_of mainnet) code body.now) at result
        r.old r.new out.old out.new }
{
    haspeljo::writers::haspeljo_encode(out, at, mainnet, code, body, r)
}

#[unsafe(no_mangle)]
pub extern "C" fn haspeljo_write_get_peers(
    out: &mut [u8],
    at: usize,
    mainnet: u8,
    r: &mut [u64; 1],
) -> u8
    ensures { WriterLeaves (message_writer (network_of mainnet) 0 write_get_peers) at result
        r.old r.new out.old out.new }
{
    haspeljo::writers::haspeljo_write_get_peers(out, at, mainnet, r)
}

#[unsafe(no_mangle)]
pub extern "C" fn haspeljo_write_peers(
    out: &mut [u8],
    at: usize,
    mainnet: u8,
    cap: usize,
    entries: &[u32],
    features: &[u32],
    buffer: &[u8],
    r: &mut [u64; 1],
) -> u8
    ensures { WriterLeaves (message_writer (network_of mainnet) cap (write_peers (tables entries.now features.now buffer.now))) at result
        r.old r.new out.old out.new }
{
    haspeljo::writers::haspeljo_write_peers(out, at, mainnet, cap, entries, features, buffer, r)
}

#[unsafe(no_mangle)]
pub extern "C" fn haspeljo_write_modifier_request(
    out: &mut [u8],
    at: usize,
    mainnet: u8,
    modifier_type: u8,
    ids: &[u32],
    buffer: &[u8],
    r: &mut [u64; 1],
) -> u8
    ensures { WriterLeaves (message_writer (network_of mainnet) 0 (write_modifier_request modifier_type ids.now buffer.now)) at result
        r.old r.new out.old out.new }
{
    haspeljo::writers::haspeljo_write_modifier_request(
        out,
        at,
        mainnet,
        modifier_type,
        ids,
        buffer,
        r,
    )
}

#[unsafe(no_mangle)]
pub extern "C" fn haspeljo_write_modifier_response(
    out: &mut [u8],
    at: usize,
    mainnet: u8,
    modifier_type: u8,
    payloads: &[u32],
    buffer: &[u8],
    r: &mut [u64; 1],
) -> u8
    ensures { WriterLeaves (message_writer (network_of mainnet) 0 (write_modifier_response modifier_type payloads.now buffer.now)) at result
        r.old r.new out.old out.new }
{
    haspeljo::writers::haspeljo_write_modifier_response(
        out,
        at,
        mainnet,
        modifier_type,
        payloads,
        buffer,
        r,
    )
}

#[unsafe(no_mangle)]
pub extern "C" fn haspeljo_write_inv(
    out: &mut [u8],
    at: usize,
    mainnet: u8,
    modifier_type: u8,
    ids: &[u32],
    buffer: &[u8],
    r: &mut [u64; 1],
) -> u8
    ensures { WriterLeaves (message_writer (network_of mainnet) 0 (write_inv modifier_type ids.now buffer.now)) at result
        r.old r.new out.old out.new }
{
    haspeljo::writers::haspeljo_write_inv(out, at, mainnet, modifier_type, ids, buffer, r)
}

#[unsafe(no_mangle)]
pub extern "C" fn haspeljo_write_sync_info(
    out: &mut [u8],
    at: usize,
    mainnet: u8,
    body: &[u8],
    r: &mut [u64; 1],
) -> u8
    ensures { WriterLeaves (message_writer (network_of mainnet) 0 (write_sync_info body.now)) at result
        r.old r.new out.old out.new }
{
    haspeljo::writers::haspeljo_write_sync_info(out, at, mainnet, body, r)
}

#[unsafe(no_mangle)]
pub extern "C" fn haspeljo_write_unknown(
    out: &mut [u8],
    at: usize,
    mainnet: u8,
    code: u8,
    body: &[u8],
    r: &mut [u64; 1],
) -> u8
    ensures { WriterLeaves (message_writer (network_of mainnet) 0 (write_unknown code body.now)) at result
        r.old r.new out.old out.new }
{
    haspeljo::writers::haspeljo_write_unknown(out, at, mainnet, code, body, r)
}

#[unsafe(no_mangle)]
pub extern "C" fn haspeljo_build(
    out: &mut [u8],
    at: usize,
    mainnet: u8,
    light: u8,
    state_type_id: u8,
    verifying: u8,
    blocks_to_keep: i32,
    major: u8,
    minor: u8,
    patch: u8,
    kind: u8,
    high: u64,
    low: u64,
    port: u16,
    timestamp: u64,
    session: i64,
    agent: &[u8],
    name: &[u8],
    r: &mut [u64; 1],
) -> u8
    ensures { WriterLeaves (build_writer kind high low
        (config_of (built_from mainnet light state_type_id verifying blocks_to_keep major minor patch kind high low port timestamp session)
        agent.now name.now)) at result
        r.old r.new out.old out.new }
{
    haspeljo::writers::haspeljo_build(
        out,
        at,
        mainnet,
        light,
        state_type_id,
        verifying,
        blocks_to_keep,
        major,
        minor,
        patch,
        kind,
        high,
        low,
        port,
        timestamp,
        session,
        agent,
        name,
        r,
    )
}
