// The session messages of fjord (protocol.rs): what a frame's payload means, read into lent memory.
//
// A message is read twice: once to see whether it is one and how much memory it takes, and once to store it. Both are one function, which is
// lent no memory the first time. UTF-8 is checked in the first reading only: the second asks that the same was accepted before (`Again`).
// A message that takes no memory is read once.
//
// What reads is lent one `Memory`, which `read_into` makes. Else text, rows and nodes stand side by side here, as a caller lends them: each is asked how
// long it is, and cleared, so that a struct of them would be taken apart in every function. That an entry is none of the three without memory is asked by
// `decode_fitting`, `read_into` and `read_message` (`RoomyEntry`): an enum of the nine would be a second list of the messages.
#![tactic(auto)]

pub mod entry;
mod fields;
mod memory;
pub mod message;
mod read;
mod rows;

ghost use Rattle.std.specs.Prelude.{◌≡◌, ℕ, ◌≤◌, ◌<◌, length};
ghost use Rattle.protocol.specs.Decoding.{decode_message};
ghost use Rattle.varint.specs.Stores.{clear_from};
ghost use Rattle.varint.specs.Inner.Again.{Again};
ghost use Rattle.protocol.specs.Entries.{entry_number};
ghost use Rattle.protocol.specs.Inner.Loading.{Opaque, RoomyEntry, bare_left, laid_as, room, ReadsWhole};
ghost use Rattle.protocol.specs.Said.{read_entry, lay};

use desc::node::WIDTH;
use desc::{MAX_DEPTH, MAX_PAYLOAD};
use entry::Entry;
use memory::Memory;
use message::{Message, Span};
use read::{read_complete, read_listing_digest, read_message, read_ready};
use varint::error::{Buffer, Refusal};
use varint::store::{copy_bytes, fill_from};

// Zeros behind what a message takes of each buffer.
fn clear_behind(text: &mut [u8], t: usize, rows: &mut [u64], r: usize, nodes: &mut [u64], k: usize)
    ensures { (text.new ≡ clear_from text.old t) × (rows.new ≡ clear_from rows.old r) × (nodes.new ≡ clear_from nodes.old k) }
{
    fill_from(text, t, 0);
    fill_from(rows, r, 0);
    fill_from(nodes, k, 0);
}

// A buffer that was lent must have room for what a message takes of it.
#[inline(always)]
fn room(buffer: Buffer, lent: usize, takes: usize) -> Result<(), Refusal>
    ensures { result ≡ room buffer lent takes }
{
    if lent < takes {
        return Err(Refusal::too_small(buffer, takes));
    }
    Ok(())
}

// A payload that is no message is one text, whatever its bytes and however long.
fn decode_opaque(
    payload: &[u8],
    text: &mut [u8],
    rows: &mut [u64],
    nodes: &mut [u64],
) -> Result<Message, Refusal>
    ensures { (max limit entry : ℕ) → Opaque entry → record { answer = result; text = text.new; rows = rows.new; nodes = nodes.new } ≡ decode_message max limit entry payload.now text.old rows.old nodes.old }
{
    let len = payload.len();
    room(Buffer::Text, text.len(), len)?;
    copy_bytes(payload, 0, len, text, 0);
    clear_behind(text, len, rows, 0, nodes, 0);
    Ok(Message::Opaque {
        payload: Span { start: 0, len },
    })
}

// A message of numbers alone takes no memory: nothing is stored, and what was lent is cleared.
#[inline(always)]
fn decode_bare(
    read: Result<Message, Refusal>,
    text: &mut [u8],
    rows: &mut [u64],
    nodes: &mut [u64],
) -> Result<Message, Refusal>
    ensures { record { answer = result; text = text.new; rows = rows.new; nodes = nodes.new } ≡ bare_left read text.old rows.old nodes.old }
{
    let message = read?;
    clear_behind(text, 0, rows, 0, nodes, 0);
    Ok(message)
}

// The message is read into the lent memory, from its start on. It is answered with how much it takes of text, rows and nodes, which who
// asked for them takes apart at once.
fn read_into(
    entry: Entry,
    payload: &[u8],
    check: bool,
    limit: u64,
    text: &mut [u8],
    rows: &mut [u64],
    nodes: &mut [u64],
) -> Result<(Message, usize, usize, usize), Refusal>
    requires roomy { RoomyEntry (entry_number entry) }
    requires short { length payload.now ≤ 4294967296 }
    requires again { Again check (read_entry limit (entry_number entry) payload.now) }
    ensures { ReadsWhole check (laid_as lay (read_entry limit (entry_number entry) payload.now)) text.old rows.old nodes.old result text.new rows.new nodes.new }
{
    let mut memory = Memory {
        check,
        limit,
        text,
        t: 0,
        rows,
        r: 0,
        nodes,
        n: 0,
    };
    let message = read_message(entry, payload, &mut memory)?;
    Ok((message, memory.t, memory.r, memory.n * WIDTH))
}

// A message that fits what was lent is stored, and what it does not fill is cleared.
fn decode_fitting(
    entry: Entry,
    payload: &[u8],
    max: u64,
    limit: u64,
    text: &mut [u8],
    rows: &mut [u64],
    nodes: &mut [u64],
) -> Result<Message, Refusal>
    requires { RoomyEntry (entry_number entry) × (length payload.now ≤ max) × (max ≤ 4294967296) }
    ensures { record { answer = result; text = text.new; rows = rows.new; nodes = nodes.new } ≡ decode_message max limit (entry_number entry) payload.now text.old rows.old nodes.old }
{
    let (message, t, r, k) = read_into(entry, payload, true, limit, &mut [], &mut [], &mut [])?;
    room(Buffer::Text, text.len(), t)?;
    room(Buffer::Rows, rows.len(), r)?;
    room(Buffer::Nodes, nodes.len(), k)?;
    if (t == 0) & (r == 0) & (k == 0) {
        clear_behind(text, 0, rows, 0, nodes, 0);
        return Ok(message);
    }
    // The first reading accepted it, and the second relies on that: it tests no text, and its answer is the first one's.
    let _ = read_into(entry, payload, false, limit, text, rows, nodes);
    clear_behind(text, t, rows, r, nodes, k);
    Ok(message)
}

// The longest payload and the depth of descriptors are parameters, so that it is proved for any. A `match`, since the wire says which message it is.
#[tactic(auto, using(crate::proofs::DecodeLaws::decode_long))]
fn decode_within(
    entry: Entry,
    payload: &[u8],
    max: u64,
    limit: u64,
    text: &mut [u8],
    rows: &mut [u64],
    nodes: &mut [u64],
) -> Result<Message, Refusal>
    requires { max ≤ 4294967296 }
    ensures { record { answer = result; text = text.new; rows = rows.new; nodes = nodes.new } ≡ decode_message max limit (entry_number entry) payload.now text.old rows.old nodes.old }
{
    let length = payload.len() as u64;
    if max < length {
        return Err(Refusal::too_large(length, max));
    }
    match entry {
        Entry::Ready => decode_bare(read_ready(payload), text, rows, nodes),
        Entry::Complete => decode_bare(read_complete(payload), text, rows, nodes),
        Entry::ListingDigest => decode_bare(read_listing_digest(payload), text, rows, nodes),
        _ => decode_fitting(entry, payload, max, limit, text, rows, nodes),
    }
}

// The message that an entry names.
fn decode_named(
    entry: Entry,
    payload: &[u8],
    text: &mut [u8],
    rows: &mut [u64],
    nodes: &mut [u64],
) -> Result<Message, Refusal>
    ensures { record { answer = result; text = text.new; rows = rows.new; nodes = nodes.new } ≡ decode_message 67108864 64 (entry_number entry) payload.now text.old rows.old nodes.old }
{
    decode_within(entry, payload, MAX_PAYLOAD, MAX_DEPTH, text, rows, nodes)
}

// The message that an entry of the kind table names, 1 to 12, or an opaque payload for any other. The entry is a number, since any byte may stand in the table.
pub fn decode(
    entry: u8,
    payload: &[u8],
    text: &mut [u8],
    rows: &mut [u64],
    nodes: &mut [u64],
) -> Result<Message, Refusal>
    ensures { record { answer = result; text = text.new; rows = rows.new; nodes = nodes.new } ≡ decode_message 67108864 64 entry payload.now text.old rows.old nodes.old }
{
    match Entry::of(u64::from(entry)) {
        Some(named) => decode_named(named, payload, text, rows, nodes),
        None => decode_opaque(payload, text, rows, nodes),
    }
}

// The same for each message, for who reads one kind alone: each is one call.
pub fn decode_startup(
    payload: &[u8],
    text: &mut [u8],
    rows: &mut [u64],
    nodes: &mut [u64],
) -> Result<Message, Refusal>
    ensures { record { answer = result; text = text.new; rows = rows.new; nodes = nodes.new } ≡ decode_message 67108864 64 1 payload.now text.old rows.old nodes.old }
{
    decode_named(Entry::Startup, payload, text, rows, nodes)
}

pub fn decode_ready(
    payload: &[u8],
    text: &mut [u8],
    rows: &mut [u64],
    nodes: &mut [u64],
) -> Result<Message, Refusal>
    ensures { record { answer = result; text = text.new; rows = rows.new; nodes = nodes.new } ≡ decode_message 67108864 64 2 payload.now text.old rows.old nodes.old }
{
    decode_named(Entry::Ready, payload, text, rows, nodes)
}

pub fn decode_error(
    payload: &[u8],
    text: &mut [u8],
    rows: &mut [u64],
    nodes: &mut [u64],
) -> Result<Message, Refusal>
    ensures { record { answer = result; text = text.new; rows = rows.new; nodes = nodes.new } ≡ decode_message 67108864 64 3 payload.now text.old rows.old nodes.old }
{
    decode_named(Entry::Error, payload, text, rows, nodes)
}

pub fn decode_complete(
    payload: &[u8],
    text: &mut [u8],
    rows: &mut [u64],
    nodes: &mut [u64],
) -> Result<Message, Refusal>
    ensures { record { answer = result; text = text.new; rows = rows.new; nodes = nodes.new } ≡ decode_message 67108864 64 4 payload.now text.old rows.old nodes.old }
{
    decode_named(Entry::Complete, payload, text, rows, nodes)
}

pub fn decode_ids(
    payload: &[u8],
    text: &mut [u8],
    rows: &mut [u64],
    nodes: &mut [u64],
) -> Result<Message, Refusal>
    ensures { record { answer = result; text = text.new; rows = rows.new; nodes = nodes.new } ≡ decode_message 67108864 64 5 payload.now text.old rows.old nodes.old }
{
    decode_named(Entry::Ids, payload, text, rows, nodes)
}

pub fn decode_types(
    payload: &[u8],
    text: &mut [u8],
    rows: &mut [u64],
    nodes: &mut [u64],
) -> Result<Message, Refusal>
    ensures { record { answer = result; text = text.new; rows = rows.new; nodes = nodes.new } ≡ decode_message 67108864 64 6 payload.now text.old rows.old nodes.old }
{
    decode_named(Entry::Types, payload, text, rows, nodes)
}

pub fn decode_control(
    payload: &[u8],
    text: &mut [u8],
    rows: &mut [u64],
    nodes: &mut [u64],
) -> Result<Message, Refusal>
    ensures { record { answer = result; text = text.new; rows = rows.new; nodes = nodes.new } ≡ decode_message 67108864 64 7 payload.now text.old rows.old nodes.old }
{
    decode_named(Entry::Control, payload, text, rows, nodes)
}

pub fn decode_control_reply(
    payload: &[u8],
    text: &mut [u8],
    rows: &mut [u64],
    nodes: &mut [u64],
) -> Result<Message, Refusal>
    ensures { record { answer = result; text = text.new; rows = rows.new; nodes = nodes.new } ≡ decode_message 67108864 64 8 payload.now text.old rows.old nodes.old }
{
    decode_named(Entry::Reply, payload, text, rows, nodes)
}

pub fn decode_profile(
    payload: &[u8],
    text: &mut [u8],
    rows: &mut [u64],
    nodes: &mut [u64],
) -> Result<Message, Refusal>
    ensures { record { answer = result; text = text.new; rows = rows.new; nodes = nodes.new } ≡ decode_message 67108864 64 9 payload.now text.old rows.old nodes.old }
{
    decode_named(Entry::Profile, payload, text, rows, nodes)
}

pub fn decode_page(
    payload: &[u8],
    text: &mut [u8],
    rows: &mut [u64],
    nodes: &mut [u64],
) -> Result<Message, Refusal>
    ensures { record { answer = result; text = text.new; rows = rows.new; nodes = nodes.new } ≡ decode_message 67108864 64 10 payload.now text.old rows.old nodes.old }
{
    decode_named(Entry::Page, payload, text, rows, nodes)
}

pub fn decode_fetch(
    payload: &[u8],
    text: &mut [u8],
    rows: &mut [u64],
    nodes: &mut [u64],
) -> Result<Message, Refusal>
    ensures { record { answer = result; text = text.new; rows = rows.new; nodes = nodes.new } ≡ decode_message 67108864 64 11 payload.now text.old rows.old nodes.old }
{
    decode_named(Entry::Fetch, payload, text, rows, nodes)
}

pub fn decode_listing_digest(
    payload: &[u8],
    text: &mut [u8],
    rows: &mut [u64],
    nodes: &mut [u64],
) -> Result<Message, Refusal>
    ensures { record { answer = result; text = text.new; rows = rows.new; nodes = nodes.new } ≡ decode_message 67108864 64 12 payload.now text.old rows.old nodes.old }
{
    decode_named(Entry::ListingDigest, payload, text, rows, nodes)
}
