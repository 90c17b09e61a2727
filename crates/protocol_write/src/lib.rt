// Encoding the session messages of fjord (protocol.rs): a message and the lent memory that it points into, back to a frame's payload.
#![tactic(auto)]

pub mod checks;
mod columns;
mod lent;
mod rows;
mod write;

ghost use Rattle.std.specs.Prelude.{◌≡◌, ◌≤◌};
ghost use Rattle.protocol.specs.Encoding.{encode_message};
ghost use Rattle.protocol.specs.declared.message.Message.TheVariants as Msg;

use checks::check_message;
use desc::{MAX_DEPTH, MAX_PAYLOAD};
use lent::Lent;
use protocol::message::{ControlOp, ControlReply, ErrorCode, Message, Mode, Span};
use varint::Written;
use varint::error::{Buffer, Refusal};
use varint::store::fill_from;
use write::write_message;

// The longest payload and the depth of descriptors are parameters, so that it is proved for any. A size of 2^64−1 may stand for a greater one, and is over
// any `max` there is.
#[tactic(auto, using(crate::proofs::Encodes::encode_refused, crate::proofs::Encodes::encode_fine))]
fn encode_within(message: &Message, max: u64, lent: &Lent<'_>, out: &mut [u8]) -> Written
    requires { max ≤ 4294967296 }
    ensures { record { answer = result; out = out.new } ≡ encode_message max lent.now.limit message.now lent.now.text.now lent.now.rows.now lent.now.nodes.now out.old }
{
    let size = check_message(message, lent)?;
    if max < size as u64 {
        return Err(Refusal::too_large(size as u64, max));
    }
    if out.len() < size {
        return Err(Refusal::too_small(Buffer::Out, size));
    }
    write_message(message, lent, out);
    fill_from(out, size, 0);
    Ok(size)
}

// Writes the payload of a message from the lent memory that it points into, and zeros after it; or a refusal, and nothing is written. Text, rows and nodes
// come one by one, as C lends them.
pub fn encode(message: Message, text: &[u8], rows: &[u64], nodes: &[u64], out: &mut [u8]) -> Written
    ensures { record { answer = result; out = out.new } ≡ encode_message 67108864 64 message text.now rows.now nodes.now out.old }
{
    let lent = Lent {
        limit: MAX_DEPTH,
        text,
        rows,
        nodes,
    };
    encode_within(&message, MAX_PAYLOAD, &lent, out)
}

// The same for each message by its fields, for who sends one kind alone: each is one call.
pub fn encode_startup(
    version: u32,
    database: Span,
    mode: Mode,
    schema_fingerprint: u64,
    claims: u64,
    text: &[u8],
    rows: &[u64],
    nodes: &[u64],
    out: &mut [u8],
) -> Written
    ensures { record { answer = result; out = out.new } ≡ encode_message 67108864 64 (Msg.Startup version database mode schema_fingerprint claims) text.now rows.now nodes.now out.old }
{
    encode(
        Message::Startup {
            version,
            database,
            mode,
            schema_fingerprint,
            claims,
        },
        text,
        rows,
        nodes,
        out,
    )
}

pub fn encode_ready(
    version: u32,
    schema_fingerprint: u64,
    predicates: u64,
    text: &[u8],
    rows: &[u64],
    nodes: &[u64],
    out: &mut [u8],
) -> Written
    ensures { record { answer = result; out = out.new } ≡ encode_message 67108864 64 (Msg.Ready version schema_fingerprint predicates) text.now rows.now nodes.now out.old }
{
    encode(
        Message::Ready {
            version,
            schema_fingerprint,
            predicates,
        },
        text,
        rows,
        nodes,
        out,
    )
}

pub fn encode_error(
    code: ErrorCode,
    message: Span,
    text: &[u8],
    rows: &[u64],
    nodes: &[u64],
    out: &mut [u8],
) -> Written
    ensures { record { answer = result; out = out.new } ≡ encode_message 67108864 64 (Msg.Error code message) text.now rows.now nodes.now out.old }
{
    encode(
        Message::Error {
            code,
            text: message,
        },
        text,
        rows,
        nodes,
        out,
    )
}

pub fn encode_complete(
    first: u64,
    second: u64,
    text: &[u8],
    rows: &[u64],
    nodes: &[u64],
    out: &mut [u8],
) -> Written
    ensures { record { answer = result; out = out.new } ≡ encode_message 67108864 64 (Msg.Complete first second) text.now rows.now nodes.now out.old }
{
    encode(Message::Complete { first, second }, text, rows, nodes, out)
}

pub fn encode_ids(count: u64, text: &[u8], rows: &[u64], nodes: &[u64], out: &mut [u8]) -> Written
    ensures { record { answer = result; out = out.new } ≡ encode_message 67108864 64 (Msg.Ids count) text.now rows.now nodes.now out.old }
{
    encode(Message::Ids { count }, text, rows, nodes, out)
}

pub fn encode_types(count: u64, text: &[u8], rows: &[u64], nodes: &[u64], out: &mut [u8]) -> Written
    ensures { record { answer = result; out = out.new } ≡ encode_message 67108864 64 (Msg.Types count) text.now rows.now nodes.now out.old }
{
    encode(Message::Types { count }, text, rows, nodes, out)
}

pub fn encode_control(
    op: ControlOp,
    database: Span,
    allow_zero_facts: bool,
    schema: Span,
    text: &[u8],
    rows: &[u64],
    nodes: &[u64],
    out: &mut [u8],
) -> Written
    ensures { record { answer = result; out = out.new } ≡ encode_message 67108864 64 (Msg.Control op database allow_zero_facts schema) text.now rows.now nodes.now out.old }
{
    encode(
        Message::Control {
            op,
            database,
            allow_zero_facts,
            schema,
        },
        text,
        rows,
        nodes,
        out,
    )
}

pub fn encode_control_reply(
    reply: ControlReply,
    text: &[u8],
    rows: &[u64],
    nodes: &[u64],
    out: &mut [u8],
) -> Written
    ensures { record { answer = result; out = out.new } ≡ encode_message 67108864 64 (Msg.Reply reply) text.now rows.now nodes.now out.old }
{
    encode(Message::Reply(reply), text, rows, nodes, out)
}

pub fn encode_profile(
    steps: u64,
    text: &[u8],
    rows: &[u64],
    nodes: &[u64],
    out: &mut [u8],
) -> Written
    ensures { record { answer = result; out = out.new } ≡ encode_message 67108864 64 (Msg.Profile steps) text.now rows.now nodes.now out.old }
{
    encode(Message::Profile { steps }, text, rows, nodes, out)
}

pub fn encode_page(
    limit: u64,
    cursor: Span,
    query: Span,
    text: &[u8],
    rows: &[u64],
    nodes: &[u64],
    out: &mut [u8],
) -> Written
    ensures { record { answer = result; out = out.new } ≡ encode_message 67108864 64 (Msg.Page limit cursor query) text.now rows.now nodes.now out.old }
{
    encode(
        Message::Page {
            limit,
            cursor,
            query,
        },
        text,
        rows,
        nodes,
        out,
    )
}

pub fn encode_fetch(
    digest: Option<u64>,
    count: u64,
    text: &[u8],
    rows: &[u64],
    nodes: &[u64],
    out: &mut [u8],
) -> Written
    ensures { record { answer = result; out = out.new } ≡ encode_message 67108864 64 (Msg.Fetch digest count) text.now rows.now nodes.now out.old }
{
    encode(Message::Fetch { digest, count }, text, rows, nodes, out)
}

pub fn encode_listing_digest(
    predicate: u32,
    digest: u64,
    text: &[u8],
    rows: &[u64],
    nodes: &[u64],
    out: &mut [u8],
) -> Written
    ensures { record { answer = result; out = out.new } ≡ encode_message 67108864 64 (Msg.ListingDigest predicate digest) text.now rows.now nodes.now out.old }
{
    encode(
        Message::ListingDigest { predicate, digest },
        text,
        rows,
        nodes,
        out,
    )
}
