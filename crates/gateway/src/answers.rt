// What a call answers, in sixteen numbers.
ghost use Rattle.std.specs.Prelude.{◌≡◌};
ghost use Rattle.gateway.specs.Answers.{numbers_of, given, accepted, refused, of_message, of_used, of_done, of_number};

use crate::numbers::{fields_of, number_of};
use protocol::message::Message;
use varint::Got;
use varint::error::{Code, Refusal};

// The parts of an answer; what a call does not give is 0. All are numbers, the kind and the message too: those that C is told, each by itself.
#[derive(Clone, Copy)]
pub struct Parts {
    pub refusal: Code,
    pub used: u64,
    pub kind: u64,
    pub stream: u64,
    pub length: u64,
    pub message: u64,
    pub fields: [u64; 6],
}

#[inline(always)]
pub(crate) fn given(refusal: Code, used: u64, message: u64, fields: [u64; 6]) -> Parts
    ensures { result ≡ given refusal used message fields }
{
    Parts {
        refusal,
        used,
        kind: 0,
        stream: 0,
        length: 0,
        message,
        fields,
    }
}

#[inline(always)]
pub(crate) fn accepted(used: u64, message: u64, fields: [u64; 6]) -> Parts
    ensures { result ≡ accepted used message fields }
{
    given(Code::default(), used, message, fields)
}

#[inline(always)]
pub(crate) fn refused(message: u64, e: Refusal) -> Parts
    ensures { result ≡ refused message e }
{
    given(Code::from(e), 0, message, [0; 6])
}

// A message, or why it was refused: then `asked` is the number of the one that was asked for. A `match`: `map_or_else` was tried, and copies the message
// once more, so that a message of numbers alone is decoded in half as much time again.
#[inline(always)]
pub(crate) fn of_message(asked: u64, a: Result<Message, Refusal>) -> Parts
    ensures { result ≡ of_message asked a }
{
    match a {
        Ok(message) => accepted(0, number_of(message), fields_of(message)),
        Err(e) => refused(asked, e),
    }
}

// How many bytes were used or written. This and the next two are one call each; a function of both closures would be as long.
#[inline(always)]
pub(crate) fn of_used(a: Result<usize, Refusal>) -> Parts
    ensures { result ≡ of_used a }
{
    a.map_or_else(|e| refused(0, e), |used| accepted(used as u64, 0, [0; 6]))
}

// Done, or why not.
#[inline(always)]
pub(crate) fn of_done(a: Result<(), Refusal>) -> Parts
    ensures { result ≡ of_done a }
{
    a.map_or_else(|e| refused(0, e), |()| accepted(0, 0, [0; 6]))
}

#[inline(always)]
pub(crate) fn of_number(a: Got<u64>) -> Parts
    ensures { result ≡ of_number a }
{
    a.map_or_else(
        |e| refused(0, e),
        |(value, next)| accepted(next as u64, 0, [value, 0, 0, 0, 0, 0]),
    )
}

// Writes an answer, and returns the refusal's number, or 0.
#[inline(always)]
pub(crate) fn tell(p: Parts, answer: &mut [u64; 16]) -> u64
    ensures { (result ≡ p.refusal.number) × (answer.new ≡ numbers_of p) }
{
    let f = p.fields;
    let why = p.refusal;
    *answer = [
        why.number, why.a, why.b, p.used, p.kind, p.stream, p.length, p.message, f[0], f[1], f[2],
        f[3], f[4], f[5], 0, 0,
    ];
    why.number
}
