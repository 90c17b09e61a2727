// Signed numbers as varints (varint.rs): zigzag makes those near zero small. The place stands beside the slice, since it may lie past the end, as in lib.rt.
ghost use Rattle.std.specs.Prelude.{◌≡◌, length};
ghost use Rattle.std.proofs.lemmas.List.Edits.{sets};
ghost use Rattle.varint.specs.Leb128.{put_u64};
ghost use Rattle.varint.specs.Outs.{wrote};
ghost use Rattle.varint.specs.Stores.{filled};
ghost use Rattle.varint.specs.Zigzag.{zig, unzig, get_i64};

use crate::{Got, Written};

// v to 2v, and to −2v − 1 where v is negative. The flipped bits of a negative v are −v − 1.
pub fn zigzag(value: i64) -> u64
    ensures { result ≡ zig value }
{
    if value < 0 {
        let m = !value;
        (m as u64) * 2 + 1
    } else {
        (value as u64) * 2
    }
}

pub fn unzigzag(bits: u64) -> i64
    ensures { result ≡ unzig bits }
{
    let half = (bits / 2) as i64;
    let even = bits % 2 == 0;
    if even { half } else { !half }
}

// The zigzag varint at place `at` of `s`.
pub fn get_i64(s: &[u8], at: usize) -> Got<i64>
    ensures { result ≡ get_i64 s.now at }
{
    let (bits, next) = crate::get_u64(s, at)?;
    Ok((unzigzag(bits), next))
}

// Stores the zigzag varint of `value` from place `at` on, as far as `out` goes, and returns how many bytes it has.
pub fn put_i64(out: &mut [u8], at: usize, value: i64) -> usize
    ensures { (result ≡ length (put_u64 (zig value))) × (out.new ≡ sets out.old at (put_u64 (zig value))) }
{
    crate::put_u64(out, at, zigzag(value))
}

// The zigzag varint of `value` alone in `out`, and zeros after it; or a refusal, and nothing is written.
pub fn encode_i64(out: &mut [u8], value: i64) -> Written
    ensures { (result ≡ wrote out.old (put_u64 (zig value))) × (out.new ≡ filled out.old (put_u64 (zig value))) }
{
    crate::encode_u64(out, zigzag(value))
}
