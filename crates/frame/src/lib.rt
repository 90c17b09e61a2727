// Frames (frame.rs): where a message starts and stops on the connection, the receiver that takes a run of bytes in pieces, and the
// display slot.
//
//   kind u8 | stream u32 | length u32 | payload
//
// What a kind means is the layer above's to say: the receiver's kind table does.
#![tactic(auto)]

pub mod kinds;
pub mod receiver;
pub mod slot;

ghost use Rattle.std.specs.Prelude.{◌≡◌, ◌+◌, ◌≤◌, length};
ghost use Rattle.varint.specs.Fixed.{le};
ghost use Rattle.varint.specs.Stores.{part};
ghost use Rattle.frame.specs.Frames.{encode_frame, decode_header, decode_frame};

use kinds::FrameKind;
use varint::Written;
use varint::error::{Buffer, Refusal};
use varint::fixed::put_u32_le;
use varint::store::{copy_bytes, fill_from, store};

// A frame's header, decoded.
#[derive(Clone, Copy)]
pub struct FrameHeader {
    pub kind: FrameKind,
    pub stream: u32,
    pub length: u32,
}

// A whole frame: its payload stands behind the header's bytes, up to the `used` bytes of frame in all.
#[derive(Clone, Copy)]
pub struct Frame {
    pub header: FrameHeader,
    pub used: usize,
}

impl Frame {
    // Bytes of header before a frame's payload.
    pub const HEADER_LEN: usize = 9;

    // The most payload that a frame may carry, as much as a message may have.
    pub const MAX_PAYLOAD: u64 = desc::MAX_PAYLOAD;
}

// Writes the frame of a payload, and zeros after it; or a refusal, and nothing is written.
#[tactic(auto, unfolding(crate::specs::Frames::encode_frame, varint::specs::Outs::wrote, varint::specs::Stores::filled), using(crate::proofs::FrameLaws::length_frame_bytes, crate::proofs::FrameLaws::frame_sent))]
pub fn encode_frame(kind: FrameKind, stream: u32, payload: &[u8], out: &mut [u8]) -> Written
    ensures { record { answer = result; out = out.new } ≡ encode_frame 67108864 kind.0 stream payload.now out.old }
{
    let length = payload.len();
    if Frame::MAX_PAYLOAD < length as u64 {
        return Err(Refusal::too_large(length as u64, Frame::MAX_PAYLOAD));
    }
    let size = Frame::HEADER_LEN + length;
    if out.len() < size {
        return Err(Refusal::too_small(Buffer::Out, size));
    }
    store(out, 0, kind.0);
    put_u32_le(out, 1, stream);
    put_u32_le(out, 5, length as u32); // it fits, and `try_from` would have a way out that nothing takes
    copy_bytes(payload, 0, length, out, Frame::HEADER_LEN);
    fill_from(out, size, 0);
    Ok(size)
}

// Reads a frame's header without waiting for its payload.
#[tactic(auto, unfolding(crate::specs::Frames::decode_header), using(crate::proofs::FrameLaws::kind_is, crate::proofs::FrameLaws::stream_is, crate::proofs::FrameLaws::length_is))]
pub fn decode_header(bytes: &[u8]) -> Result<FrameHeader, Refusal>
    ensures { result ≡ decode_header 67108864 bytes.now }
{
    let Some(header) = bytes.first_chunk::<9>() else {
        return Err(Refusal::UnexpectedEof);
    };
    let [kind, s0, s1, s2, s3, l0, l1, l2, l3] = *header;
    let length = u32::from_le_bytes([l0, l1, l2, l3]);
    if Frame::MAX_PAYLOAD < length as u64 {
        return Err(Refusal::too_large(length as u64, Frame::MAX_PAYLOAD));
    }
    Ok(FrameHeader {
        kind: FrameKind(kind),
        stream: u32::from_le_bytes([s0, s1, s2, s3]),
        length,
    })
}

// Reads one whole frame.
#[tactic(auto, unfolding(crate::specs::Frames::decode_frame, crate::specs::Frames::framed, crate::specs::Frames::decode_header))]
pub fn decode_frame(bytes: &[u8]) -> Result<Frame, Refusal>
    ensures { result ≡ decode_frame 67108864 bytes.now }
{
    let header = decode_header(bytes)?;
    let length = header.length as usize;
    let available = bytes.len() - Frame::HEADER_LEN;
    if available < length {
        return Err(Refusal::LengthOutOfRange {
            declared: header.length as u64,
            available: available as u64,
        });
    }
    Ok(Frame {
        header,
        used: Frame::HEADER_LEN + length,
    })
}
