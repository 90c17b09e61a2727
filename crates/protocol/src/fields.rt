// The fields of messages. A reader takes a slice and a place in it, and answers the value with the place after it, or the refusal. The place is the
// answer's too and may lie past the end: of `&s[at..]` each caller would owe that it does not.
ghost use Rattle.std.specs.Prelude.{◌≡◌};
ghost use Rattle.varint.specs.Got.{Got};
ghost use Rattle.varint.specs.declared.error.Refusal.TheVariants.{TypeMismatch};
ghost use Rattle.protocol.specs.Fetch.{digest};
ghost use Rattle.protocol.specs.Fields.{byte, flag, wide_flag};
ghost use Rattle.protocol.specs.Inner.Knowing.{Known};

use varint::error::{Mismatch, Refusal};
use varint::{Got, get_u64};

// A fetch's flag.
const NO_DIGEST: u8 = 0;

const DIGEST: u8 = 1;

// The byte at place `at`, or the refusal that is given for one that is missing.
pub(crate) fn read_byte(s: &[u8], at: usize, missing: Refusal) -> Got<u8>
    ensures { result ≡ (byte missing).read s.now at }
{
    let Some(&byte) = s.get(at) else {
        return Err(missing);
    };
    Ok((byte, at + 1))
}

// The byte of a mode, a code or an op. `why` is the type's own refusal: a type has no constant for it, and `TryFrom` none to give.
pub(crate) fn read_known<T: TryFrom<u8, Error = Refusal>>(
    s: &[u8],
    at: usize,
    why: Mismatch,
) -> Got<T>
    ensures { Known T.try_from_gives ((byte (TypeMismatch why)).read s.now at) result }
{
    let (byte, next) = read_byte(s, at, Refusal::TypeMismatch(why))?;
    Ok((T::try_from(byte)?, next))
}

// A byte that is not 0 is yes.
pub(crate) fn read_flag(s: &[u8], at: usize, why: Mismatch) -> Got<bool>
    ensures { result ≡ (flag why).read s.now at }
{
    let (value, next) = read_byte(s, at, Refusal::TypeMismatch(why))?;
    Ok((value != 0, next))
}

// So is a varint that is not 0.
pub(crate) fn read_wide_flag(s: &[u8], at: usize) -> Got<bool>
    ensures { result ≡ wide_flag.read s.now at }
{
    let (number, next) = get_u64(s, at)?;
    Ok((number != 0, next))
}

// A fetch's flag, and the digest behind it where the flag says that there is one.
pub(crate) fn read_digest(s: &[u8], at: usize) -> Got<Option<u64>>
    ensures { result ≡ digest.read s.now at }
{
    let (flag, p) = read_byte(s, at, Refusal::UnexpectedEof)?;
    match flag {
        NO_DIGEST => Ok((None, p)),
        DIGEST => {
            let (digest, next) = get_u64(s, p)?;
            Ok((Some(digest), next))
        }
        _ => Err(Refusal::BadDigestFlag(flag)),
    }
}
