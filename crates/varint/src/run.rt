// Runs of varints, one behind the other. The place stands beside the slice, since it may lie past the end, as in lib.rt.
ghost use Rattle.std.specs.Prelude.{◌≡◌, ◌+◌, ◌≤◌, length, IfSome};
ghost use Rattle.std.proofs.lemmas.List.Edits.{sets};
ghost use Rattle.varint.specs.Runs.{end_of, values_of};
ghost use Rattle.varint.specs.Inner.RunSteps.{Passed};

use crate::error::Refusal;
use crate::store::store;
use crate::{get_any, get_u64};

// Varints of up to so many bytes are passed byte by byte.
const SHORT: usize = 9;

// How many of these bytes the varint at their start has, where it ends in them. By `position` the last byte is found as well, but what the bytes before it say, the
// loop's invariant, has no place then.
fn skim_one(bytes: &[u8; SHORT]) -> Option<usize>
    ensures { IfSome result (λ n. Passed bytes.now n) }
{
    for i in 0..SHORT {
        let b = bytes[i];
        if b < 128 {
            let padded = b == 0 && 0 < i;
            return if padded { None } else { Some(i + 1) };
        }
    }
    None
}

// Where the `count` varints from place `at` on end. Their values are not made: a varint that has room for nine bytes is
// passed byte by byte, with no test for the end of `s`, and only an unusual one is read.
pub fn skim_run(s: &[u8], at: usize, count: u64) -> Result<usize, Refusal>
    ensures { result ≡ end_of count s.now at }
{
    let mut p = at;
    for _ in 0..count {
        p = skim_next(s, p)?;
    }
    Ok(p)
}

// Where the varint at place `at` ends.
fn skim_next(s: &[u8], at: usize) -> Result<usize, Refusal>
    ensures { result ≡ end_of 1 s.now at }
{
    if at < s.len() {
        if let Some(bytes) = s[at..].first_chunk::<SHORT>() {
            if let Some(n) = skim_one(bytes) {
                return Ok(at + n);
            }
        }
    }
    let (_, next) = get_u64(s, at)?;
    Ok(next)
}

// Stores the `count` varints from place `at` on in `out`, as far as it goes, and tells where they end; those before one that
// is refused are stored. Each is read inline, so that its value and place stay in registers: `get_u64` takes twice the time here.
pub fn fill_run(s: &[u8], at: usize, count: u64, out: &mut [u64]) -> Result<usize, Refusal>
    ensures { (result ≡ end_of count s.now at) × (out.new ≡ sets out.old 0 (values_of count s.now at)) }
{
    let mut p = at;
    for r in 0..count {
        let (value, next) = get_any(s, p)?;
        store(out, r as usize, value);
        p = next;
    }
    Ok(p)
}
