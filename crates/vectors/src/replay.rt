// One line of a data file: the request is replayed, and its answer compared with the recorded one.
use crate::answer::Answer;
use crate::fault::Fault;
use crate::request::Request;
use crate::{frame_ops, list_ops, message_ops, varint_ops};
use std::alloc::Global;
use varint::{fixed, signed, text};

// A line has at most so many bytes.
pub const MAX_LINE: usize = 16384;

// An answer is told up to so many bytes, which are more than a line has.
const MAX_ANSWER: usize = 65536;

// Replays a line that has a request; an answer other than the recorded one is an error too.
pub fn replay_line(alloc: Global, line: &[u8]) -> Result<(), Fault> {
    if line.len() > MAX_LINE {
        return Err(Fault::TooLong);
    }
    // Bytes that are no UTF-8 become a letter that stands in no request and no answer.
    let line = String::from_utf8_lossy(alloc, line)?;
    let (request, recorded) = line.split_once(" = ").ok_or(Fault::NoAnswer)?;
    let mut request = Request::new(alloc, request);
    let answer = perform(&mut request)?;
    request.end()?;
    if answer.as_str() != recorded {
        let told = answer.get(..MAX_ANSWER).unwrap_or(&answer);
        return Err(Fault::Differs(String::from_str(alloc, told)?));
    }
    Ok(())
}

// A `match`, since the request says which.
fn perform(request: &mut Request<'_>) -> Answer {
    match request.name {
        "get_u64" => varint_ops::get(request, varint::get_u64),
        "get_i64" => varint_ops::get(request, signed::get_i64),
        "get_u32_le" => varint_ops::get(request, fixed::get_u32_le),
        "get_u64_le" => varint_ops::get(request, fixed::get_u64_le),
        "get_str" => varint_ops::get_text(request, text::get_str),
        "take_name" => varint_ops::get_text(request, text::take_name),
        "put_u64" => varint_ops::put(request, varint::put_u64),
        "put_i64" => varint_ops::put(request, signed::put_i64),
        "put_u32_le" => varint_ops::put_fixed(request, fixed::put_u32_le),
        "put_u64_le" => varint_ops::put_fixed(request, fixed::put_u64_le),
        "encode_u64" => varint_ops::encode_u64(request),
        "len_u64" => varint_ops::len_u64(request),
        "zigzag" => varint_ops::zigzag(request),
        "unzigzag" => varint_ops::unzigzag(request),
        "is_utf8" => varint_ops::is_utf8(request),
        "store_byte" => varint_ops::store_byte(request),
        "store_number" => varint_ops::store_number(request),
        "clear_bytes" => varint_ops::clear_bytes(request),
        "clear_numbers" => varint_ops::clear_numbers(request),
        "copy_bytes" => varint_ops::copy_bytes(request),
        "decode_desc" => message_ops::decode_desc(request),
        "decode" => message_ops::decode(request),
        "encode_desc" => message_ops::encode_desc(request),
        "encode" => message_ops::encode(request),
        "encode_frame" => frame_ops::encode_frame(request),
        "decode_header" => frame_ops::decode_header(request),
        "decode_frame" => frame_ops::decode_frame(request),
        "put_slot" => frame_ops::put_slot(request),
        "open" => frame_ops::open(request),
        "offer" => frame_ops::offer(request),
        "offer_to" => frame_ops::offer_to(request),
        "list" => list_ops::list(request),
        _ => Err(Fault::NoOperation),
    }
}
