// The entry points of the fjord session wire: the layers below, on numbers and slices. Each writes its whole answer, sixteen numbers, and returns 0
// or the refusal's number. The crate gateway_c exports them for C, so each buffer is lent alone: C passes a pointer and a length for each.
#![tactic(auto)]

mod answers;
mod frames;
mod numbers;
mod receiver;

ghost use Rattle.std.specs.Prelude.{◌≡◌, ◌*◌, ltb, length};
ghost use Rattle.varint.specs.Choice.{pick};
ghost use Rattle.varint.specs.declared.error.Fault.TheVariants.{RowCount, Number};
ghost use Rattle.protocol.specs.Entries.{entry_number};
ghost use Rattle.protocol.specs.Rows.{width_of};
ghost use Rattle.gateway.specs.Entries.{named_entry, fault_of, encode_numbers, decode_call, decode_desc_call, encode_call, encode_desc_call, get_call, put_call};

use answers::{of_message, of_number, of_used, tell};
use desc::decode_desc;
use desc::write::encode_desc;
pub use frames::{fjord_decode_frame, fjord_decode_header, fjord_encode_frame, fjord_put_slot};
use numbers::message_of;
use protocol::decode;
use protocol::entry::Entry;
use protocol::message::RowKind;
use protocol_write::checks::few_rows;
use protocol_write::encode;
pub use receiver::{fjord_offer, fjord_open};
use varint::error::{Fault, Refusal};
use varint::{Written, encode_u64, get_u64};

// The number of the message that an entry of the kind table names, or 0 for an opaque payload. Numbers: C passes the entry and is told the message's number.
pub(crate) fn named(entry: u64) -> u8
    ensures { result ≡ named_entry entry }
{
    Entry::of(entry).map_or(0, |which| which as u8)
}

#[tactic(auto, unfolding(crate::specs::Entries::decode_call))]
pub fn fjord_decode(
    entry: u64,
    payload: &[u8],
    text: &mut [u8],
    rows: &mut [u64],
    nodes: &mut [u64],
    answer: &mut [u64; 16],
) -> u64
    ensures { record { result = result; answer = answer.new; text = text.new; rows = rows.new; nodes = nodes.new } ≡ decode_call entry payload.now text.old rows.old nodes.old }
{
    let number = named(entry);
    let read = decode(number, payload, text, rows, nodes);
    tell(of_message(u64::from(number), read), answer)
}

#[tactic(auto, unfolding(crate::specs::Entries::decode_desc_call))]
pub fn fjord_decode_desc(
    payload: &[u8],
    text: &mut [u8],
    rows: &mut [u64],
    nodes: &mut [u64],
    answer: &mut [u64; 16],
) -> u64
    ensures { record { result = result; answer = answer.new; text = text.new; rows = rows.new; nodes = nodes.new } ≡ decode_desc_call payload.now text.old rows.old nodes.old }
{
    let read = decode_desc(payload, text, rows, nodes);
    tell(of_used(read), answer)
}

fn fault_in(kind: RowKind, rows: &[u64], count: u64) -> Fault
    ensures { result ≡ pick (ltb (length rows.now) (count * width_of kind)) RowCount Number }
{
    if few_rows(kind, rows, count) {
        return Fault::RowCount;
    }
    Fault::Number
}

// What is wrong with numbers that are no message's: rows are counted before any number is looked at. A `match`, since C says which message it is.
fn fault_of(entry: Entry, f: &[u64; 6], rows: &[u64]) -> Fault
    ensures { result ≡ fault_of (entry_number entry) f.now rows.now }
{
    match entry {
        Entry::Startup => fault_in(RowKind::Claim, rows, f[5]),
        Entry::Fetch => fault_in(RowKind::Pair, rows, f[2]),
        _ => Fault::Number,
    }
}

// Encodes the message of these numbers. `number` is one, as C passes it, and may be no message's.
#[tactic(auto, unfolding(crate::specs::Entries::encode_numbers), using(protocol::proofs::EntryLaws::entry_named, crate::proofs::EntryLaws::encode_none))]
fn encode_numbers(
    number: u64,
    f: &[u64; 6],
    text: &[u8],
    rows: &[u64],
    nodes: &[u64],
    out: &mut [u8],
) -> Written
    ensures { record { answer = result; out = out.new } ≡ encode_numbers number f.now text.now rows.now nodes.now out.old }
{
    let Some(entry) = Entry::of(number) else {
        return Err(Refusal::BadMessage(Fault::Number));
    };
    match message_of(entry, f) {
        Some(message) => encode(message, text, rows, nodes, out),
        None => Err(Refusal::BadMessage(fault_of(entry, f, rows))),
    }
}

#[tactic(auto, unfolding(crate::specs::Entries::encode_call))]
pub fn fjord_encode(
    number: u64,
    fields: &[u64; 6],
    text: &[u8],
    rows: &[u64],
    nodes: &[u64],
    out: &mut [u8],
    answer: &mut [u64; 16],
) -> u64
    ensures { record { result = result; answer = answer.new; out = out.new } ≡ encode_call number fields.now text.now rows.now nodes.now out.old }
{
    let written = encode_numbers(number, fields, text, rows, nodes, out);
    tell(of_used(written), answer)
}

#[tactic(auto, unfolding(crate::specs::Entries::encode_desc_call))]
pub fn fjord_encode_desc(text: &[u8], nodes: &[u64], out: &mut [u8], answer: &mut [u64; 16]) -> u64
    ensures { record { result = result; answer = answer.new; out = out.new } ≡ encode_desc_call text.now nodes.now out.old }
{
    let written = encode_desc(text, nodes, out);
    tell(of_used(written), answer)
}

#[tactic(auto, unfolding(crate::specs::Entries::get_call))]
pub fn fjord_get_u64(bytes: &[u8], answer: &mut [u64; 16]) -> u64
    ensures { record { result = result; answer = answer.new } ≡ get_call bytes.now }
{
    tell(of_number(get_u64(bytes, 0)), answer)
}

#[tactic(auto, unfolding(crate::specs::Entries::put_call))]
pub fn fjord_put_u64(value: u64, out: &mut [u8], answer: &mut [u64; 16]) -> u64
    ensures { record { result = result; answer = answer.new; out = out.new } ≡ put_call value out.old }
{
    let written = encode_u64(out, value);
    tell(of_used(written), answer)
}
