// Writers for Rust and C, each from a place of a lent output. r is the place after what was written.
ghost use Rattle.std.specs.Prelude.{◌≡◌};
ghost use Rattle.wire.specs.Output.{written_said};
ghost use Rattle.handshake.specs.Tables.{tables};
ghost use Rattle.handshake_build.specs.Parts.{config_of};
ghost use Rattle.messages.specs.Writes.{write_get_peers, write_peers, write_modifier_request, write_modifier_response, write_inv, write_sync_info, write_unknown};
ghost use Rattle.export_arrays.specs.Networks.{network_of};
ghost use Rattle.haspeljo.specs.Results.{written_number, end_after, WriterLeaves};
ghost use Rattle.haspeljo.specs.Configs.{built_from};
ghost use Rattle.haspeljo.specs.Writers.{vlq_writer, short_string_writer, part_writer, entry_writer, handshake_writer, frame_writer, message_writer, build_writer};

use handshake_entry_rows::Tables;
use wire::Refusal;

// A VLQ, the shortest.
pub fn haspeljo_write_vlq(out: &mut [u8], at: usize, value: u64, r: &mut [u64; 1]) -> u8
    ensures { WriterLeaves (vlq_writer value) at result
        r.old r.new out.old out.new }
{
    let w = vlq_write::write_vlq(out, at, value);
    written_result(w, r)
}

// A length byte, and the bytes of s.
pub fn haspeljo_write_short_string(out: &mut [u8], at: usize, s: &[u8], r: &mut [u64; 1]) -> u8
    ensures { WriterLeaves (short_string_writer s.now) at result
        r.old r.new out.old out.new }
{
    let w = vlq_write::write_short_string(out, at, s);
    written_result(w, r)
}

// The bytes of s.
pub fn haspeljo_write_part(out: &mut [u8], at: usize, s: &[u8], r: &mut [u64; 1]) -> u8
    ensures { WriterLeaves (part_writer s.now) at result
        r.old r.new out.old out.new }
{
    let w = wire_part_write::write_part(out, at, s);
    written_result(w, r)
}

// The entry in row index of a table.
pub fn haspeljo_write_entry(
    out: &mut [u8],
    at: usize,
    index: usize,
    entries: &[u32],
    features: &[u32],
    buffer: &[u8],
    r: &mut [u64; 1],
) -> u8
    ensures { WriterLeaves (entry_writer (tables entries.now features.now buffer.now) index) at result
        r.old r.new out.old out.new }
{
    let rows = Tables::new(entries, features, buffer);
    let w = handshake_entry_write::write_entry(out, at, rows, index);
    written_result(w, r)
}

// A handshake: a timestamp with the entry in row index of a table.
pub fn haspeljo_write_handshake(
    out: &mut [u8],
    at: usize,
    timestamp: u64,
    index: usize,
    entries: &[u32],
    features: &[u32],
    buffer: &[u8],
    r: &mut [u64; 1],
) -> u8
    ensures { WriterLeaves (handshake_writer timestamp (tables entries.now features.now buffer.now) index) at result
        r.old r.new out.old out.new }
{
    let t = Tables::new(entries, features, buffer);
    let w = handshake_write::write_handshake(out, at, timestamp, t, index);
    written_result(w, r)
}

// A frame of any code.
pub fn haspeljo_encode(
    out: &mut [u8],
    at: usize,
    mainnet: u8,
    code: u8,
    body: &[u8],
    r: &mut [u64; 1],
) -> u8
    ensures { WriterLeaves (frame_writer (network_of mainnet) code body.now) at result
        r.old r.new out.old out.new }
{
    let w = frame_write::encode(out, at, crate::network_of(mainnet), code, body);
    written_result(w, r)
}

// GetPeers, as its whole frame.
pub fn haspeljo_write_get_peers(out: &mut [u8], at: usize, mainnet: u8, r: &mut [u64; 1]) -> u8
    ensures { WriterLeaves (message_writer (network_of mainnet) 0 write_get_peers) at result
        r.old r.new out.old out.new }
{
    let w = messages_opaque_write::write_get_peers(out, at, crate::network_of(mainnet));
    written_result(w, r)
}

// Peers from all rows of a table.
pub fn haspeljo_write_peers(
    out: &mut [u8],
    at: usize,
    mainnet: u8,
    cap: usize,
    entries: &[u32],
    features: &[u32],
    buffer: &[u8],
    r: &mut [u64; 1],
) -> u8
    ensures { WriterLeaves (message_writer (network_of mainnet) cap (write_peers (tables entries.now features.now buffer.now))) at result
        r.old r.new out.old out.new }
{
    let t = Tables::new(entries, features, buffer);
    let w = messages_peers_write::write_peers(out, at, crate::network_of(mainnet), cap, t);
    written_result(w, r)
}

// ModifierRequest: a type byte and the ids at places of the buffer.
pub fn haspeljo_write_modifier_request(
    out: &mut [u8],
    at: usize,
    mainnet: u8,
    modifier_type: u8,
    ids: &[u32],
    buffer: &[u8],
    r: &mut [u64; 1],
) -> u8
    ensures { WriterLeaves (message_writer (network_of mainnet) 0 (write_modifier_request modifier_type ids.now buffer.now)) at result
        r.old r.new out.old out.new }
{
    let w = messages_inventory_write::write_modifier_request(
        out,
        at,
        crate::network_of(mainnet),
        modifier_type,
        ids,
        buffer,
    );
    written_result(w, r)
}

// ModifierResponse: a type byte and the payloads of a table.
pub fn haspeljo_write_modifier_response(
    out: &mut [u8],
    at: usize,
    mainnet: u8,
    modifier_type: u8,
    payloads: &[u32],
    buffer: &[u8],
    r: &mut [u64; 1],
) -> u8
    ensures { WriterLeaves (message_writer (network_of mainnet) 0 (write_modifier_response modifier_type payloads.now buffer.now)) at result
        r.old r.new out.old out.new }
{
    let w = messages_response_write::write_modifier_response(
        out,
        at,
        crate::network_of(mainnet),
        modifier_type,
        payloads,
        buffer,
    );
    written_result(w, r)
}

// Inv: a type byte and the ids at places of the buffer.
pub fn haspeljo_write_inv(
    out: &mut [u8],
    at: usize,
    mainnet: u8,
    modifier_type: u8,
    ids: &[u32],
    buffer: &[u8],
    r: &mut [u64; 1],
) -> u8
    ensures { WriterLeaves (message_writer (network_of mainnet) 0 (write_inv modifier_type ids.now buffer.now)) at result
        r.old r.new out.old out.new }
{
    let w = messages_inventory_write::write_inv(
        out,
        at,
        crate::network_of(mainnet),
        modifier_type,
        ids,
        buffer,
    );
    written_result(w, r)
}

// SyncInfo, whose body is written as it is.
pub fn haspeljo_write_sync_info(
    out: &mut [u8],
    at: usize,
    mainnet: u8,
    body: &[u8],
    r: &mut [u64; 1],
) -> u8
    ensures { WriterLeaves (message_writer (network_of mainnet) 0 (write_sync_info body.now)) at result
        r.old r.new out.old out.new }
{
    let w = messages_opaque_write::write_sync_info(out, at, crate::network_of(mainnet), body);
    written_result(w, r)
}

// A message of another code, whose body is written as it is.
pub fn haspeljo_write_unknown(
    out: &mut [u8],
    at: usize,
    mainnet: u8,
    code: u8,
    body: &[u8],
    r: &mut [u64; 1],
) -> u8
    ensures { WriterLeaves (message_writer (network_of mainnet) 0 (write_unknown code body.now)) at result
        r.old r.new out.old out.new }
{
    let w = messages_opaque_write::write_unknown(out, at, crate::network_of(mainnet), code, body);
    written_result(w, r)
}

// A handshake with the features Mode and Session. light is 0 for a full node, verifying 0 for one that does not verify. The address is as
// haspeljo_parse gives it; 16 where the kind is not 0, 4 or 6, or an IPv4 address has a number above 32 bits or a low half.
pub fn haspeljo_build(
    out: &mut [u8],
    at: usize,
    mainnet: u8,
    light: u8,
    state_type_id: u8,
    verifying: u8,
    blocks_to_keep: i32,
    major: u8,
    minor: u8,
    patch: u8,
    kind: u8,
    high: u64,
    low: u64,
    port: u16,
    timestamp: u64,
    session: i64,
    agent: &[u8],
    name: &[u8],
    r: &mut [u64; 1],
) -> u8
    ensures { WriterLeaves (build_writer kind high low
        (config_of (built_from mainnet light state_type_id verifying blocks_to_keep major minor patch kind high low port timestamp session)
        agent.now name.now)) at result
        r.old r.new out.old out.new }
{
    match export_config::config_from(
        crate::network_of(mainnet),
        light,
        state_type_id,
        verifying,
        blocks_to_keep,
        major,
        minor,
        patch,
        kind,
        high,
        low,
        port,
        timestamp,
        session,
    ) {
        Ok(config) => {
            let w = handshake_build::build(out, at, config, agent, name);
            written_result(w, r)
        }
        Err(m) => m.number(),
    }
}

// 0, with the end in r; or the refusal number, with r as it was.
fn written_result(w: Result<usize, Refusal>, r: &mut [u64; 1]) -> u8
    ensures value { result ≡ written_number (written_said w) }
    ensures r_after { r.new ≡ end_after (written_said w) r.old }
{
    match w {
        Ok(end) => {
            *r = [end as u64];
            0
        }
        Err(m) => m.number(),
    }
}
