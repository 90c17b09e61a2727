// What stands at the start of a descriptor, and before each child of one. All is inlined, so that what was read stays in registers: else types take a
// quarter more time. Readers are lent all bytes with a place beside them: the place past what was read is an answer too, and one may lie past the end; of
// `&s[at..]` each caller would owe that it does not.
ghost use Rattle.std.specs.Prelude.{◌≡◌, ◌≤◌, length};
ghost use Rattle.varint.specs.Leb128.{get_u64};
ghost use Rattle.varint.specs.Inner.Again.{Again};
ghost use Rattle.desc.specs.Reading.{fact_on, count_on, head_at, discriminant_on, label_at};

use varint::error::Refusal;
use varint::inner::find_name;
use varint::text::{Span, take_name};
use varint::{Got, MAX_U32, get_u64};

// Tags of descriptors (desc.rs): those whose start has more than the tag, and the last of all. They are numbers and no enum: the node table, which is
// C's too, has them as numbers, and a refusal tells the number of an unknown one.
pub(crate) const TAG_FACT: u64 = 2;

pub(crate) const TAG_RECORD: u64 = 3;

pub(crate) const TAG_UNION: u64 = 4;

pub(crate) const TAG_BYTES: u64 = 5;

// A type without parts, by its tag and a fact's predicate; or one with parts, by its tag and how many. Where there is no predicate it is 0, and no `None`:
// it is stored in a column of the node table, which has 0 there, so that an Option would be made to be unmade.
#[derive(Clone, Copy)]
pub enum Head {
    Leaf { tag: u64, predicate: u64 },
    Branch { tag: u64, count: u64 },
}

// A child's name lies in the bytes, or, of a node that is written, in the text. A record's field has discriminant 0, and no `None`, for the same
// reason.
#[derive(Clone, Copy)]
pub struct Label {
    pub name: Span,
    pub discriminant: u64,
}

// A fact's predicate has 32 bits.
#[inline(always)]
fn read_fact(s: &[u8], p: usize) -> Got<Head>
    ensures { result ≡ fact_on (get_u64 s.now p) }
{
    let (predicate, next) = get_u64(s, p)?;
    if MAX_U32 < predicate {
        return Err(Refusal::UnknownPredicate);
    }
    let tag = TAG_FACT;
    Ok((Head::Leaf { tag, predicate }, next))
}

// The count of a record or a union, at place p past its tag at place `at`. It is held against all bytes from the tag on.
#[inline(always)]
fn read_count(s: &[u8], at: usize, tag: u64, p: usize) -> Got<Head>
    requires { (at ≤ p) × (p ≤ length s.now) }
    ensures { result ≡ count_on s.now at tag (get_u64 s.now p) }
{
    let (count, next) = get_u64(s, p)?;
    let available = (s.len() - at) as u64;
    if available < count {
        return Err(Refusal::LengthOutOfRange {
            declared: count,
            available,
        });
    }
    Ok((Head::Branch { tag, count }, next))
}

// The start of the descriptor at place `at`. The last test is a guard: with `0..=TAG_BYTES` the cases are a table of jumps, and a type of 833 nodes takes
// 45 µs and not 40.
#[inline(always)]
#[tactic(auto, unfolding(crate::specs::Reading::head_at))]
pub(crate) fn read_head(s: &[u8], at: usize) -> Got<Head>
    ensures { result ≡ head_at s.now at }
{
    let (tag, next) = get_u64(s, at)?;
    match tag {
        TAG_FACT => read_fact(s, next),
        TAG_RECORD | TAG_UNION => read_count(s, at, tag, next),
        _ if TAG_BYTES < tag => Err(Refusal::UnknownRefForm(tag)),
        _ => Ok((Head::Leaf { tag, predicate: 0 }, next)),
    }
}

// An alternative's discriminant has 32 bits.
#[inline(always)]
fn read_discriminant(s: &[u8], name: Span, p: usize) -> Got<Label>
    ensures { result ≡ discriminant_on name (get_u64 s.now p) }
{
    let (discriminant, next) = get_u64(s, p)?;
    if MAX_U32 < discriminant {
        return Err(Refusal::UnknownDiscriminant(discriminant));
    }
    Ok((Label { name, discriminant }, next))
}

// What stands before a child of a record or a union: its name, and in a union its discriminant.
#[inline(always)]
#[tactic(auto, using(crate::proofs::ReadAgain::label_name), unfolding(crate::specs::Reading::label_at))]
pub(crate) fn read_label(s: &[u8], tag: u64, p: usize, check: bool) -> Got<Label>
    requires { Again check (label_at s.now tag p) }
    ensures { result ≡ label_at s.now tag p }
{
    let (name, next) = if check {
        take_name(s, p)?
    } else {
        find_name(s, p)?
    };
    if tag == TAG_UNION {
        return read_discriminant(s, name, next);
    }
    let discriminant = 0;
    Ok((Label { name, discriminant }, next))
}
