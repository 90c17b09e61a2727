// Little-endian fields of 4 and 8 bytes. The place stands beside the slice, since it may lie past the end, as in lib.rt.
ghost use Rattle.std.specs.Prelude.{◌≡◌, ◌<◌};
ghost use Rattle.std.proofs.lemmas.List.Edits.{sets};
ghost use Rattle.varint.specs.Fixed.{get_le, put_le};
ghost use Rattle.varint.specs.Inner.Taking.{taken};

use crate::Got;
use crate::error::Refusal;
use crate::store::copy_bytes;

// The N bytes at place `at` of `s`.
fn take<const N: usize>(s: &[u8], at: usize) -> Got<[u8; N]>
    requires { 0 < N }
    ensures { result ≡ taken N s.now at }
{
    if s.len() < at {
        return Err(Refusal::UnexpectedEof);
    }
    match s[at..].first_chunk::<N>() {
        Some(bytes) => Ok((*bytes, at + N)),
        None => Err(Refusal::UnexpectedEof),
    }
}

// The 4 bytes at place `at` of `s`, the least first. This and the next three are a line or two each, over what has the width as a parameter.
#[tactic(auto, using(crate::proofs::Digits::got_le_4, crate::proofs::FixedLaws::get_le_bad))]
pub fn get_u32_le(s: &[u8], at: usize) -> Got<u64>
    ensures { result ≡ get_le 4 s.now at }
{
    let (bytes, next) = take::<4>(s, at)?;
    Ok((u64::from(u32::from_le_bytes(bytes)), next))
}

// The 8 bytes at place `at` of `s`, the least first.
#[tactic(auto, using(crate::proofs::Digits::got_le_8, crate::proofs::FixedLaws::get_le_bad))]
pub fn get_u64_le(s: &[u8], at: usize) -> Got<u64>
    ensures { result ≡ get_le 8 s.now at }
{
    let (bytes, next) = take::<8>(s, at)?;
    Ok((u64::from_le_bytes(bytes), next))
}

// Stores the 4 bytes of `value`, the least first, from place `at` on, as far as `out` goes.
pub fn put_u32_le(out: &mut [u8], at: usize, value: u32)
    ensures { out.new ≡ sets out.old at (put_le 4 value) }
{
    copy_bytes(&value.to_le_bytes(), 0, 4, out, at);
}

// Stores the 8 bytes of `value`, the least first, from place `at` on, as far as `out` goes.
pub fn put_u64_le(out: &mut [u8], at: usize, value: u64)
    ensures { out.new ≡ sets out.old at (put_le 8 value) }
{
    copy_bytes(&value.to_le_bytes(), 0, 8, out, at);
}
