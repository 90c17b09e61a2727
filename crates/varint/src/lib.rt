// Numbers on the wire (varint.rs): LEB128, seven bits a byte, least first, one encoding a number.
//
// A reader takes a slice and a place in it; a place at or past the end reads as no bytes left. It answers the value with the place after it,
// or the refusal. A writer at a place stores what lies inside the buffer and nothing past its end. The place stands beside the slice, since it may lie
// past the end: of `&s[at..]` or `&mut out[at..]` each caller would owe that it does not.
#![tactic(auto)]

pub mod error;
pub mod fixed;
pub mod inner;
pub mod run;
pub mod signed;
pub mod store;
pub mod text;
pub mod utf8;

ghost use Rattle.std.specs.Prelude.{◌≡◌, ◌+◌, ◌≤◌, ◌<◌, length, get_or};
ghost use Rattle.std.proofs.lemmas.List.Edits.{sets};
ghost use Rattle.varint.specs.Leb128.{get_u64, put_u64};
ghost use Rattle.varint.specs.Stores.{filled};
ghost use Rattle.varint.specs.Outs.{wrote};

use error::{Buffer, Refusal};
use store::{fill_from, store};

// The most bytes that a varint has.
pub const MAX_LEN: usize = 10;

// The greatest number of 32 bits.
pub const MAX_U32: u64 = 0xFFFF_FFFF;

// What is read at a place, with the place after it.
pub type Got<T> = Result<(T, usize), Refusal>;

// How many bytes of a lent buffer were written.
pub type Written = Result<usize, Refusal>;

// The varint at place `at` of `s`. Up to three bytes, the most usual, are read here and in `get_short`, which are inlined everywhere, and more by `get_long`.
// The answer of `get_long` is taken apart and made again: handed on whole it keeps each answer in memory, and a fetch takes nearly twice the time.
#[inline(always)]
pub fn get_u64(s: &[u8], at: usize) -> Got<u64>
    ensures { result ≡ get_u64 s.now at }
{
    if at < s.len() {
        let b = u64::from(s[at]);
        if b < 128 {
            return Ok((b, at + 1));
        }
        return get_short(s, at, b);
    }
    let (value, next) = get_long(s, at)?;
    Ok((value, next))
}

// The varint at place `at` of `s`, whose first byte is `b` and not its last. The place is the answer's too, so it is no slice from there on that is read.
#[inline(always)]
fn get_short(s: &[u8], at: usize, b: u64) -> Got<u64>
    requires { (at < length s.now) × (b ≡ get_or s.now at 0) × (128 ≤ b) × (b < 256) }
    ensures { result ≡ get_u64 s.now at }
{
    if 3 <= s.len() - at {
        let c = u64::from(s[at + 1]);
        if c < 128 {
            if 0 < c {
                return Ok((b - 128 + c * 128, at + 2));
            }
        } else {
            let d = u64::from(s[at + 2]);
            if d < 128 {
                if 0 < d {
                    return Ok((b - 128 + (c - 128) * 128 + d * 16384, at + 3));
                }
            }
        }
    }
    let (value, next) = get_long(s, at)?;
    Ok((value, next))
}

// The varint at place `at` of `s`, of any length, by a call: it is too long for the compiler to inline it, and what is inlined everywhere stays short.
fn get_long(s: &[u8], at: usize) -> Got<u64>
    ensures { result ≡ get_u64 s.now at }
{
    get_any(s, at)
}

// The same, inlined. The loop has a fixed count of turns, so that the compiler knows each byte's weight.
#[inline(always)]
fn get_any(s: &[u8], at: usize) -> Got<u64>
    ensures { result ≡ get_u64 s.now at }
{
    if s.len() <= at {
        return Err(Refusal::UnexpectedEof);
    }
    let left = s.len() - at;
    let mut value: u64 = 0;
    let mut unit: u64 = 1;
    for i in 0..MAX_LEN - 1 {
        if left <= i {
            return Err(Refusal::UnexpectedEof);
        }
        let b = u64::from(s[at + i]);
        if b < 128 {
            if b == 0 {
                let padded = 0 < i;
                if padded {
                    return Err(Refusal::VarintNotMinimal);
                }
            }
            return Ok((value + b * unit, at + i + 1));
        }
        value += (b - 128) * unit;
        unit *= 128;
    }
    if left < MAX_LEN {
        return Err(Refusal::UnexpectedEof);
    }
    // The tenth byte has room for one bit.
    match s[at + 9] {
        0 => Err(Refusal::VarintNotMinimal),
        1 => Ok((value + unit, at + MAX_LEN)),
        _ => Err(Refusal::VarintOverflow),
    }
}

// How many bytes the varint of `value` has. It is compared with each power of 128, least first: most numbers are small, and
// nothing is divided.
pub fn len_u64(value: u64) -> usize
    ensures { result ≡ length (put_u64 value) }
{
    if value < 0x80 {
        return 1;
    }
    if value < 0x4000 {
        return 2;
    }
    if value < 0x20_0000 {
        return 3;
    }
    if value < 0x1000_0000 {
        return 4;
    }
    if value < 0x8_0000_0000 {
        return 5;
    }
    if value < 0x400_0000_0000 {
        return 6;
    }
    if value < 0x2_0000_0000_0000 {
        return 7;
    }
    if value < 0x100_0000_0000_0000 {
        return 8;
    }
    if value < 0x8000_0000_0000_0000 {
        return 9;
    }
    MAX_LEN
}

// Stores the varint of `value` from place `at` on, as far as `out` goes, and returns how many bytes it has. Near the end of
// `out` each byte is tested for its place, elsewhere none.
pub fn put_u64(out: &mut [u8], at: usize, value: u64) -> usize
    ensures { (result ≡ length (put_u64 value)) × (out.new ≡ sets out.old at (put_u64 value)) }
{
    if out.len() <= at {
        return len_u64(value);
    }
    let room = &mut out[at..];
    if MAX_LEN <= room.len() {
        return put_free(room, value);
    }
    put_clipped(room, value)
}

// Stores the varint of `value` at the start of a buffer with room for any varint.
fn put_free(out: &mut [u8], value: u64) -> usize
    requires { 10 ≤ length out.old }
    ensures { (result ≡ length (put_u64 value)) × (out.new ≡ sets out.old 0 (put_u64 value)) }
{
    let mut v = value;
    let mut p = 0;
    // No `for`: how many bytes there are is told by what is left of the number, and not by a range.
    while 128 <= v {
        out[p] = (v % 128 + 128) as u8;
        v = v / 128;
        p += 1;
    }
    out[p] = v as u8;
    p + 1
}

// Stores the varint of `value` from the start on, as far as `out` goes. `put_free` into ten bytes of its own and a copy of them was tried: where a
// message just fits, that takes two fifths more time. One function over how a byte is stored would be these two by a flag.
fn put_clipped(out: &mut [u8], value: u64) -> usize
    ensures { (result ≡ length (put_u64 value)) × (out.new ≡ sets out.old 0 (put_u64 value)) }
{
    let mut v = value;
    let mut p = 0;
    // No `for`, as in `put_free`.
    while 128 <= v {
        store(out, p, (v % 128 + 128) as u8);
        v = v / 128;
        p += 1;
    }
    store(out, p, v as u8);
    p + 1
}

// The varint of `value` alone in `out`, and zeros after it; or a refusal, and nothing is written.
pub fn encode_u64(out: &mut [u8], value: u64) -> Written
    ensures { (result ≡ wrote out.old (put_u64 value)) × (out.new ≡ filled out.old (put_u64 value)) }
{
    let len = len_u64(value);
    if out.len() < len {
        return Err(Refusal::too_small(Buffer::Out, len));
    }
    put_u64(out, 0, value);
    fill_from(out, len, 0);
    Ok(len)
}
