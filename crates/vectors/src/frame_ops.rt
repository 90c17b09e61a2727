// The operations of the crate `frame`: frames, the display slot, and pieces that are offered to a receiver.
//
// `encode_frame` and `put_slot` have two numbers, the bytes that are read, and the bytes of out before the call; `decode_header` and `decode_frame` have bytes.
// A receiver is its kind table, of which zeros at the end are left out, its header, and its numbers in their order. `open` has a receiver, a kind table and
// the length of the hold. `offer` has the kind table and the length of the hold of an opening, `offer_to` a receiver and the bytes of its hold; then both have
// the length of text, how many numbers rows and nodes have, how many pieces come, and the pieces.
use crate::answer::{
    Answer, Hex, Numbers, tell, tell_code, tell_refusal, tell_result, tell_written,
};
use crate::fault::Fault;
use crate::fields::fields_of;
use crate::lent::Lent;
use crate::request::{Request, clip};
use frame::kinds::FrameKind;
use frame::receiver::{Outcome, Progress, Receiver};
use frame::{FrameHeader, slot};
use std::alloc::Global;
use std::fmt;
use varint::text::Span;

fn numbers_of(h: FrameHeader) -> [u64; 3] {
    [
        u64::from(h.kind.0),
        u64::from(h.stream),
        u64::from(h.length),
    ]
}

pub fn encode_frame(request: &mut Request<'_>) -> Answer {
    let kind = FrameKind(clip(request.number()?, u8::MAX));
    let stream = clip(request.number()?, u32::MAX);
    let payload = request.bytes()?;
    let mut out = request.bytes()?;
    let written = frame::encode_frame(kind, stream, &payload, &mut out);
    tell_written(request.alloc, written, &out)
}

pub fn put_slot(request: &mut Request<'_>) -> Answer {
    let start = request.number()?;
    let len = request.number()?;
    let text = request.bytes()?;
    let mut out = request.bytes()?;
    let shown = slot::put_slot(&text, Span { start, len }, &mut out);
    let told = tell_result(request.alloc, "shown", shown.map(|()| []))?;
    Ok(format!(in request.alloc; "{told} out {}", Hex(&out))?)
}

pub fn decode_header(request: &mut Request<'_>) -> Answer {
    let header = frame::decode_header(&request.bytes()?);
    tell_result(request.alloc, "header", header.map(numbers_of))
}

// A frame has the count of its bytes behind its header.
pub fn decode_frame(request: &mut Request<'_>) -> Answer {
    let frame = frame::decode_frame(&request.bytes()?);
    let numbers = frame.map(|f| {
        let [kind, stream, length] = numbers_of(f.header);
        [kind, stream, length, f.used as u64]
    });
    tell_result(request.alloc, "frame", numbers)
}

fn take_receiver(request: &mut Request<'_>) -> Result<Receiver, Fault> {
    Ok(Receiver {
        table: request.array()?,
        progress: Progress {
            header: request.array()?,
            header_len: request.number()?,
            payload_len: request.number()?,
            hold_len: request.number()?,
            stop: request.number()?,
            stop_a: request.number()?,
            stop_b: request.number()?,
        },
    })
}

// A receiver with its hold, as an answer has them.
#[derive(Clone, Copy)]
struct Held<'a> {
    receiver: &'a Receiver,
    hold: &'a [u8],
}

impl fmt::Display for Held<'_> {
    fn fmt<W: fmt::Write>(&self, f: &mut fmt::Formatter<W>) -> fmt::Result {
        let table = &self.receiver.table;
        let end = table
            .iter()
            .rposition(|entry| *entry != 0)
            .map_or(0, |last| last + 1);
        let p = self.receiver.progress;
        let numbers = [
            p.header_len as u64,
            p.payload_len as u64,
            p.hold_len as u64,
            p.stop,
            p.stop_a,
            p.stop_b,
        ];
        write!(
            f,
            "receiver {} {}{} hold {}",
            Hex(&table[..end]),
            Hex(&p.header),
            Numbers(&numbers),
            Hex(self.hold)
        )
    }
}

pub fn open(request: &mut Request<'_>) -> Answer {
    let mut receiver = take_receiver(request)?;
    let table = request.bytes()?;
    let mut hold = request.room()?;
    let opened = receiver.open(&table, &mut hold);
    let told = tell_result(request.alloc, "accepted", opened.map(|()| []))?;
    let held = Held {
        receiver: &receiver,
        hold: &hold,
    };
    Ok(format!(in request.alloc; "{told} {held}")?)
}

fn tell_outcome(alloc: Global, outcome: Outcome) -> Answer {
    match outcome {
        Outcome::More => tell(alloc, "more", []),
        Outcome::Handed { header, answer } => {
            let told = tell(alloc, "frame", numbers_of(header))?;
            let message = tell_result(alloc, "accepted", answer.map(fields_of))?;
            Ok(format!(in alloc; "{told} {message}")?)
        }
        Outcome::Stopped(code) => tell_code(alloc, "stopped", code),
        Outcome::Refused(code) => tell_code(alloc, "refused", code),
    }
}

// Offers the pieces one after the other, each once.
fn offer_pieces(request: &mut Request<'_>, receiver: &mut Receiver, hold: &mut [u8]) -> Answer {
    let alloc = request.alloc;
    let mut lent = Lent::take_some(request)?;
    let count = request.number_or_none()?;
    let mut told = String::new(alloc);
    for _ in 0..count {
        let piece = request.bytes()?;
        let offered = receiver.offer(
            &piece,
            hold,
            &mut lent.text,
            &mut lent.rows,
            &mut lent.nodes,
        );
        let outcome = tell_outcome(alloc, offered.outcome)?;
        write!(told, "used {} {outcome} ", offered.used)?;
    }
    let held = Held { receiver, hold };
    Ok(format!(in alloc; "{told}{held} {lent}")?)
}

pub fn offer(request: &mut Request<'_>) -> Answer {
    let table: [u8; 256] = request.array()?;
    let mut hold = request.room()?;
    let mut receiver = Receiver::unopened();
    if let Err(why) = receiver.open(&table, &mut hold) {
        return tell_refusal(request.alloc, why);
    }
    offer_pieces(request, &mut receiver, &mut hold)
}

pub fn offer_to(request: &mut Request<'_>) -> Answer {
    let mut receiver = take_receiver(request)?;
    let mut hold = request.bytes()?;
    offer_pieces(request, &mut receiver, &mut hold)
}
