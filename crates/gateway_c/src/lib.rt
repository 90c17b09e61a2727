// The C entry points of the fjord session wire, as include/fjord_wire.h declares them: the gateway's functions under the same names and with the same clauses.
// Each buffer is lent alone, as C passes it.
#![tactic(auto)]

ghost use Rattle.std.specs.Prelude.{◌≡◌};
ghost use Rattle.gateway.specs.Entries.{decode_call, decode_desc_call, encode_call, encode_desc_call, get_call, put_call};
ghost use Rattle.gateway.specs.FrameEntries.{encode_frame_call, header_call, frame_call, slot_call, OpensTo, OffersTo};

use frame::receiver::Receiver;

#[unsafe(no_mangle)]
pub extern "C" fn fjord_decode(
    entry: u64,
    payload: &[u8],
    text: &mut [u8],
    rows: &mut [u64],
    nodes: &mut [u64],
    answer: &mut [u64; 16],
) -> u64
    ensures { record { result = result; answer = answer.new; text = text.new; rows = rows.new; nodes = nodes.new } ≡ decode_call entry payload.now text.old rows.old nodes.old }
{
    gateway::fjord_decode(entry, payload, text, rows, nodes, answer)
}

#[unsafe(no_mangle)]
pub extern "C" fn fjord_decode_desc(
    payload: &[u8],
    text: &mut [u8],
    rows: &mut [u64],
    nodes: &mut [u64],
    answer: &mut [u64; 16],
) -> u64
    ensures { record { result = result; answer = answer.new; text = text.new; rows = rows.new; nodes = nodes.new } ≡ decode_desc_call payload.now text.old rows.old nodes.old }
{
    gateway::fjord_decode_desc(payload, text, rows, nodes, answer)
}

#[unsafe(no_mangle)]
pub extern "C" fn fjord_encode(
    number: u64,
    fields: &[u64; 6],
    text: &[u8],
    rows: &[u64],
    nodes: &[u64],
    out: &mut [u8],
    answer: &mut [u64; 16],
) -> u64
    ensures { record { result = result; answer = answer.new; out = out.new } ≡ encode_call number fields.now text.now rows.now nodes.now out.old }
{
    gateway::fjord_encode(number, fields, text, rows, nodes, out, answer)
}

#[unsafe(no_mangle)]
pub extern "C" fn fjord_encode_desc(
    text: &[u8],
    nodes: &[u64],
    out: &mut [u8],
    answer: &mut [u64; 16],
) -> u64
    ensures { record { result = result; answer = answer.new; out = out.new } ≡ encode_desc_call text.now nodes.now out.old }
{
    gateway::fjord_encode_desc(text, nodes, out, answer)
}

#[unsafe(no_mangle)]
pub extern "C" fn fjord_get_u64(bytes: &[u8], answer: &mut [u64; 16]) -> u64
    ensures { record { result = result; answer = answer.new } ≡ get_call bytes.now }
{
    gateway::fjord_get_u64(bytes, answer)
}

#[unsafe(no_mangle)]
pub extern "C" fn fjord_put_u64(value: u64, out: &mut [u8], answer: &mut [u64; 16]) -> u64
    ensures { record { result = result; answer = answer.new; out = out.new } ≡ put_call value out.old }
{
    gateway::fjord_put_u64(value, out, answer)
}

#[unsafe(no_mangle)]
pub extern "C" fn fjord_encode_frame(
    kind: u8,
    stream: u32,
    payload: &[u8],
    out: &mut [u8],
    answer: &mut [u64; 16],
) -> u64
    ensures { record { result = result; answer = answer.new; out = out.new } ≡ encode_frame_call kind stream payload.now out.old }
{
    gateway::fjord_encode_frame(kind, stream, payload, out, answer)
}

#[unsafe(no_mangle)]
pub extern "C" fn fjord_decode_header(bytes: &[u8], answer: &mut [u64; 16]) -> u64
    ensures { record { result = result; answer = answer.new } ≡ header_call bytes.now }
{
    gateway::fjord_decode_header(bytes, answer)
}

#[unsafe(no_mangle)]
pub extern "C" fn fjord_decode_frame(bytes: &[u8], answer: &mut [u64; 16]) -> u64
    ensures { record { result = result; answer = answer.new } ≡ frame_call bytes.now }
{
    gateway::fjord_decode_frame(bytes, answer)
}

#[unsafe(no_mangle)]
pub extern "C" fn fjord_put_slot(
    text: &[u8],
    start: u64,
    length: u64,
    slot: &mut [u8],
    answer: &mut [u64; 16],
) -> u64
    ensures { record { result = result; answer = answer.new; out = slot.new } ≡ slot_call text.now start length slot.old }
{
    gateway::fjord_put_slot(text, start, length, slot, answer)
}

#[unsafe(no_mangle)]
pub extern "C" fn fjord_open(
    receiver: &mut Receiver,
    table: &[u8],
    hold: &mut [u8],
    answer: &mut [u64; 16],
) -> u64
    ensures { OpensTo receiver.old table.now hold.old answer.old result receiver.new hold.new answer.new }
{
    gateway::fjord_open(receiver, table, hold, answer)
}

#[unsafe(no_mangle)]
pub extern "C" fn fjord_offer(
    receiver: &mut Receiver,
    piece: &[u8],
    hold: &mut [u8],
    text: &mut [u8],
    rows: &mut [u64],
    nodes: &mut [u64],
    answer: &mut [u64; 16],
) -> u64
    ensures { OffersTo receiver.old piece.now hold.old text.old rows.old nodes.old answer.old result receiver.new hold.new text.new rows.new nodes.new answer.new }
{
    gateway::fjord_offer(receiver, piece, hold, text, rows, nodes, answer)
}
