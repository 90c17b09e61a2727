// The operations on descriptors and messages, of the crates `desc`, `protocol` and `protocol_write`.
//
// To decode, a request has the entry where there is one, the bytes, the length of text and how many numbers rows and nodes have. To encode, it has the
// message's numbers where there is one, the text, the length of out, for a message how many numbers rows has and these, and the nodes.
use crate::answer::{Answer, tell_result, tell_written};
use crate::fields::{fields_of, message_of};
use crate::lent::Lent;
use crate::request::Request;
use desc::write;

pub fn decode_desc(request: &mut Request<'_>) -> Answer {
    let payload = request.bytes()?;
    let mut lent = Lent::take(request)?;
    let used = desc::decode_desc(&payload, &mut lent.text, &mut lent.rows, &mut lent.nodes);
    let told = tell_result(request.alloc, "used", used.map(|n| [n as u64]))?;
    Ok(format!(in request.alloc; "{told} {lent}")?)
}

pub fn decode(request: &mut Request<'_>) -> Answer {
    let entry = request.number()?;
    let payload = request.bytes()?;
    let mut lent = Lent::take(request)?;
    let message = protocol::decode(
        entry,
        &payload,
        &mut lent.text,
        &mut lent.rows,
        &mut lent.nodes,
    );
    let told = tell_result(request.alloc, "accepted", message.map(fields_of))?;
    Ok(format!(in request.alloc; "{told} {lent}")?)
}

pub fn encode_desc(request: &mut Request<'_>) -> Answer {
    let text = request.bytes()?;
    let mut out = request.room()?;
    let nodes = request.last_numbers()?;
    let written = write::encode_desc(&text, &nodes, &mut out);
    tell_written(request.alloc, written, &out)
}

pub fn encode(request: &mut Request<'_>) -> Answer {
    let message = message_of(request.numbers()?)?;
    let text = request.bytes()?;
    let mut out = request.room()?;
    let rows = request.counted_numbers()?;
    let nodes = request.last_numbers()?;
    let written = protocol_write::encode(message, &text, &rows, &nodes, &mut out);
    tell_written(request.alloc, written, &out)
}
