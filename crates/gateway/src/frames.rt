// The entry points of frames and the display slot.
ghost use Rattle.std.specs.Prelude.{◌≡◌};
ghost use Rattle.gateway.specs.FrameEntries.{headed, of_header, of_frame, encode_frame_call, header_call, frame_call, slot_call};

use crate::answers::{Parts, accepted, of_done, of_used, refused, tell};
use frame::kinds::FrameKind;
use frame::slot::put_slot;
use frame::{Frame, FrameHeader, decode_frame, decode_header, encode_frame};
use varint::error::Refusal;
use varint::text::Span;

// A frame's header beside what else is told.
pub(crate) fn with_header(h: FrameHeader, used: u64, p: Parts) -> Parts
    ensures { result ≡ headed h used p }
{
    Parts {
        used,
        kind: u64::from(h.kind.0),
        stream: u64::from(h.stream),
        length: u64::from(h.length),
        ..p
    }
}

// This and the next are one call each, as those of answers.rt.
fn of_header(a: Result<FrameHeader, Refusal>) -> Parts
    ensures { result ≡ of_header a }
{
    a.map_or_else(
        |e| refused(0, e),
        |h| with_header(h, 0, accepted(0, 0, [0; 6])),
    )
}

fn of_frame(a: Result<Frame, Refusal>) -> Parts
    ensures { result ≡ of_frame a }
{
    a.map_or_else(
        |e| refused(0, e),
        |f| with_header(f.header, f.used as u64, accepted(0, 0, [0; 6])),
    )
}

#[tactic(auto, unfolding(crate::specs::FrameEntries::encode_frame_call))]
pub fn fjord_encode_frame(
    kind: u8,
    stream: u32,
    payload: &[u8],
    out: &mut [u8],
    answer: &mut [u64; 16],
) -> u64
    ensures { record { result = result; answer = answer.new; out = out.new } ≡ encode_frame_call kind stream payload.now out.old }
{
    let written = encode_frame(FrameKind(kind), stream, payload, out);
    tell(of_used(written), answer)
}

#[tactic(auto, unfolding(crate::specs::FrameEntries::header_call))]
pub fn fjord_decode_header(bytes: &[u8], answer: &mut [u64; 16]) -> u64
    ensures { record { result = result; answer = answer.new } ≡ header_call bytes.now }
{
    tell(of_header(decode_header(bytes)), answer)
}

#[tactic(auto, unfolding(crate::specs::FrameEntries::frame_call))]
pub fn fjord_decode_frame(bytes: &[u8], answer: &mut [u64; 16]) -> u64
    ensures { record { result = result; answer = answer.new } ≡ frame_call bytes.now }
{
    tell(of_frame(decode_frame(bytes)), answer)
}

#[tactic(auto, unfolding(crate::specs::FrameEntries::slot_call))]
pub fn fjord_put_slot(
    text: &[u8],
    start: u64,
    length: u64,
    slot: &mut [u8],
    answer: &mut [u64; 16],
) -> u64
    ensures { record { result = result; answer = answer.new; out = slot.new } ≡ slot_call text.now start length slot.old }
{
    let shown = put_slot(text, Span::of(start, length), slot);
    tell(of_done(shown), answer)
}
