// The operations of the crate `varint`.
//
// A request has the numbers first, in the order of the operation's parameters, and then the slices: as their bytes, or, for a
// writer, as the buffer's length. An answer has the whole buffer. A function for each shape
// of arguments and of answer: what two of them share is a line or two.
use crate::answer::{Answer, Hex, Numbers, tell_refusal, tell_written};
use crate::request::Request;
use std::fmt::Display;
use std::str::FromStr;
use varint::text::Span;
use varint::{Got, signed, store, utf8};

// A reader of numbers.
pub fn get<T: Display + Drop, F: FnOnce(&[u8], usize) -> Got<T> + Drop>(
    request: &mut Request<'_>,
    get: F,
) -> Answer
    requires { F.IsAlwaysCallable get }
{
    let at = request.number()?;
    let s = request.bytes()?;
    match get(&s, at) {
        Ok((value, next)) => Ok(format!(in request.alloc; "value {value} next {next}")?),
        Err(why) => tell_refusal(request.alloc, why),
    }
}

// A reader of texts.
pub fn get_text<F: FnOnce(&[u8], usize) -> Got<Span> + Drop>(
    request: &mut Request<'_>,
    get: F,
) -> Answer
    requires { F.IsAlwaysCallable get }
{
    let at = request.number()?;
    let s = request.bytes()?;
    match get(&s, at) {
        Ok((t, next)) => Ok(format!(in request.alloc; "text {} {} next {next}", t.start, t.len)?),
        Err(why) => tell_refusal(request.alloc, why),
    }
}

// A writer that counts the bytes it would store.
pub fn put<T: FromStr + Drop, F: FnOnce(&mut [u8], usize, T) -> usize + Drop>(
    request: &mut Request<'_>,
    put: F,
) -> Answer
where
    T::Err: Drop,
    requires { F.IsAlwaysCallable put }
{
    let at = request.number()?;
    let value = request.number()?;
    let mut out = request.room()?;
    let len = put(&mut out, at, value);
    Ok(format!(in request.alloc; "length {len} out {}", Hex(&out))?)
}

// A writer of a number of fixed size.
pub fn put_fixed<T: FromStr + Drop, F: FnOnce(&mut [u8], usize, T) + Drop>(
    request: &mut Request<'_>,
    put: F,
) -> Answer
where
    T::Err: Drop,
    requires { F.IsAlwaysCallable put }
{
    let at = request.number()?;
    let value = request.number()?;
    let mut out = request.room()?;
    put(&mut out, at, value);
    Ok(format!(in request.alloc; "out {}", Hex(&out))?)
}

pub fn encode_u64(request: &mut Request<'_>) -> Answer {
    let value = request.number()?;
    let mut out = request.room()?;
    let written = varint::encode_u64(&mut out, value);
    tell_written(request.alloc, written, &out)
}

pub fn len_u64(request: &mut Request<'_>) -> Answer {
    let len = varint::len_u64(request.number()?);
    Ok(format!(in request.alloc; "{len}")?)
}

pub fn zigzag(request: &mut Request<'_>) -> Answer {
    let bits = signed::zigzag(request.number()?);
    Ok(format!(in request.alloc; "{bits}")?)
}

pub fn unzigzag(request: &mut Request<'_>) -> Answer {
    let value = signed::unzigzag(request.number()?);
    Ok(format!(in request.alloc; "{value}")?)
}

pub fn is_utf8(request: &mut Request<'_>) -> Answer {
    let from = request.number()?;
    let len = request.number()?;
    let s = request.bytes()?;
    let is_text = utf8::is_utf8(&s, from, len);
    Ok(String::from_str(request.alloc, if is_text { "yes" } else { "no" })?)
}

pub fn store_byte(request: &mut Request<'_>) -> Answer {
    let at = request.number()?;
    let byte = request.number()?;
    let mut out = request.bytes()?;
    store::store(&mut out, at, byte);
    Ok(format!(in request.alloc; "out {}", Hex(&out))?)
}

pub fn clear_bytes(request: &mut Request<'_>) -> Answer {
    let at = request.number()?;
    let mut out = request.bytes()?;
    store::fill_from(&mut out, at, 0);
    Ok(format!(in request.alloc; "out {}", Hex(&out))?)
}

pub fn copy_bytes(request: &mut Request<'_>) -> Answer {
    let from = request.number()?;
    let len = request.number()?;
    let at = request.number()?;
    let src = request.bytes()?;
    let mut dst = request.bytes()?;
    store::copy_bytes(&src, from, len, &mut dst, at);
    Ok(format!(in request.alloc; "out {}", Hex(&dst))?)
}

// A buffer of numbers before a call. Bytes come with the request and are told by their digits, so what stores numbers is no twin of what stores bytes: one function
// of both would be lent the buffer and how it is told.
const NUMBERS: [u64; 4] = [165; 4];

pub fn store_number(request: &mut Request<'_>) -> Answer {
    let at = request.number()?;
    let value = request.number()?;
    let mut out = NUMBERS;
    store::store(&mut out, at, value);
    Ok(format!(in request.alloc; "numbers{}", Numbers(&out))?)
}

pub fn clear_numbers(request: &mut Request<'_>) -> Answer {
    let at = request.number()?;
    let mut out = NUMBERS;
    store::fill_from(&mut out, at, 0);
    Ok(format!(in request.alloc; "numbers{}", Numbers(&out))?)
}
