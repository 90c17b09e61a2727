// Reading the rows of messages: claims, types, steps, and the pairs of a fetch. Each is read at a place of the bytes, into the lent memory, and
// answers the place past it, for which it takes the place beside the slice (fields.rt).
#![tactic(auto, unfolding(crate::specs::Inner::Loading::load, crate::specs::Inner::Loading::told))]

ghost use Rattle.std.specs.Prelude.{◌≡◌, ◌+◌, ◌*◌, ◌≤◌, length};
ghost use Rattle.varint.specs.Formats.{read_times};
ghost use Rattle.varint.specs.Inner.Again.{Again};
ghost use Rattle.desc.specs.WellFormed.{descriptor};
ghost use Rattle.protocol.specs.Fetch.{bad_fact};
ghost use Rattle.protocol.specs.Fields.{optional_on};
ghost use Rattle.protocol.specs.Pieces.{many};
ghost use Rattle.protocol.specs.Types.{lay_value};
ghost use Rattle.protocol.specs.Inner.Rows.{row, lay_row};
ghost use Rattle.protocol.specs.Inner.Loading.{mem, sides, lay_sides, past, Fits, RowFits, Loads};

use crate::fields::{read_flag, read_wide_flag};
use crate::memory::Memory;
use crate::message::{Claim, Pair, Predicate, Row, SEQUENCES, Step};
use varint::error::{Mismatch, Refusal};
use varint::{MAX_U32, get_u64};

// A fact's id is its type's, of 24 bits, before its sequence, of 40 bits.
const SEQUENCE_BITS: u32 = 40;

const PREDICATES: u64 = 0x100_0000;

// A type's value, where it has one.
#[inline(always)]
fn read_value(s: &[u8], at: usize, has: bool, memory: &mut Memory<'_>) -> Result<usize, Refusal>
    requires before { Fits s.now at (mem memory.old) }
    requires again { Again memory.old.check (optional_on (descriptor memory.old.limit) has s.now at) }
    ensures { Loads past lay_value (optional_on (descriptor memory.old.limit) has s.now at) memory.old memory.new result }
{
    if has {
        return memory.desc(s, at);
    }
    Ok(at)
}

// What follows a type's name: virtual, key, has value, value.
#[inline(always)]
fn read_sides(s: &[u8], at: usize, memory: &mut Memory<'_>) -> Result<usize, Refusal>
    requires before { RowFits s.now at (mem memory.old) }
    requires again { Again memory.old.check ((sides memory.old.limit).read s.now at) }
    ensures { Loads past lay_sides ((sides memory.old.limit).read s.now at) memory.old memory.new result }
{
    let root = memory.n as u64;
    let (is_virtual, p) = read_wide_flag(s, at)?;
    let q = memory.desc(s, p)?;
    let (has, next) = read_wide_flag(s, q)?;
    memory.store_three(u64::from(is_virtual), u64::from(has), root);
    read_value(s, next, has, memory)
}

// The refusal of a pair that is no fact's id.
fn bad_fact(predicate: u64, sequence: u64) -> Refusal
    ensures { result ≡ bad_fact (predicate, sequence) }
{
    Refusal::BadFactId((predicate << SEQUENCE_BITS) | sequence)
}

// Rows that are read: each kind has a reader of its own, so that the loop over rows is made for it. Ids alone are read as a run of varints.
pub(crate) trait ReadRow: Row {
    fn read(s: &[u8], at: usize, memory: &mut Memory<'_>) -> Result<usize, Refusal>
        requires before { RowFits s.now at (mem memory.old) }
        requires again { Again memory.old.check ((row Self.KIND memory.old.limit).read s.now at) }
        ensures { Loads past (lay_row Self.KIND) ((row Self.KIND memory.old.limit).read s.now at) memory.old memory.new result };
}

impl ReadRow for Claim {
    #[inline(always)]
    fn read(s: &[u8], at: usize, memory: &mut Memory<'_>) -> Result<usize, Refusal> {
        let (name, p) = memory.name(s, at)?;
        let (fingerprint, next) = get_u64(s, p)?;
        memory.store_three(name.start as u64, name.len as u64, fingerprint);
        Ok(next)
    }
}

impl ReadRow for Predicate {
    #[inline(always)]
    fn read(s: &[u8], at: usize, memory: &mut Memory<'_>) -> Result<usize, Refusal> {
        let (id, p) = get_u64(s, at)?;
        if MAX_U32 < id {
            return Err(Refusal::UnknownPredicate);
        }
        let (name, q) = memory.name(s, p)?;
        memory.store_three(id, name.start as u64, name.len as u64);
        read_sides(s, q, memory)
    }
}

impl ReadRow for Step {
    #[inline(always)]
    fn read(s: &[u8], at: usize, memory: &mut Memory<'_>) -> Result<usize, Refusal> {
        let (name, p) = memory.name(s, at)?;
        let (examined, q) = get_u64(s, p)?;
        let (full, next) = read_flag(s, q, Mismatch::FullScan)?;
        memory.store_three(name.start as u64, name.len as u64, examined);
        memory.store_one(u64::from(full));
        Ok(next)
    }
}

// Both halves are read before either is looked at.
impl ReadRow for Pair {
    #[inline(always)]
    fn read(s: &[u8], at: usize, memory: &mut Memory<'_>) -> Result<usize, Refusal> {
        let (predicate, p) = get_u64(s, at)?;
        let (sequence, next) = get_u64(s, p)?;
        if MAX_U32 < predicate {
            return Err(Refusal::UnknownPredicate);
        }
        // Two tests, and not one: that makes the loop an eighth faster.
        if PREDICATES <= predicate {
            return Err(bad_fact(predicate, sequence));
        }
        if SEQUENCES <= sequence {
            return Err(bad_fact(predicate, sequence));
        }
        memory.store_one(predicate * SEQUENCES + sequence);
        Ok(next)
    }
}

// `count` rows; the place past them.
#[inline(always)]
pub(crate) fn read_rows<R: ReadRow>(
    count: u64,
    s: &[u8],
    at: usize,
    memory: &mut Memory<'_>,
) -> Result<usize, Refusal>
    requires before { RowFits s.now at (mem memory.old) }
    requires again { Again memory.old.check (read_times (row R.KIND memory.old.limit) count s.now at) }
    ensures { Loads past (many (lay_row R.KIND)) (read_times (row R.KIND memory.old.limit) count s.now at) memory.old memory.new result }
{
    let mut next = at;
    for _ in 0..count {
        next = R::read(s, next, memory)?;
    }
    Ok(next)
}
