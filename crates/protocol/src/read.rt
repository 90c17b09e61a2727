// Reading whole messages, each as its layout says. In the reading that does not check, texts, rows and nodes are stored. Each reader asks for a memory of which
// nothing is taken (`Empty`), so that what it takes is where the memory stands in the end: a message's first text stands at the start of text, and no place
// overflows, since a payload has a byte for each that is passed. One with texts asks too that the same was accepted before, if it does not check (`Again`).
// A step takes a place in the payload beside it, as the readers of fields do (fields.rt).
ghost use Rattle.std.specs.Prelude.{◌≡◌};
ghost use Rattle.varint.specs.Formats.{varint, read_times};
ghost use Rattle.varint.specs.Inner.Again.{Again};
ghost use Rattle.protocol.specs.Inner.Loading.{at_end, laid_as, past, Loads, Empty, bare, ReadsInto, RoomyEntry, lay_finished};
ghost use Rattle.protocol.specs.Wholes.{ended};
ghost use Rattle.protocol.specs.declared.message.ControlOp.TheVariants.{Create};
ghost use Rattle.protocol.specs.Complete.{read_complete, lay_complete};
ghost use Rattle.protocol.specs.Control.{read_control, lay_control};
ghost use Rattle.protocol.specs.Entries.{entry_number};
ghost use Rattle.protocol.specs.Error.{read_error, lay_error};
ghost use Rattle.protocol.specs.Fetch.{read_fetch, lay_fetch};
ghost use Rattle.protocol.specs.Ids.{lay_id, read_ids, lay_ids};
ghost use Rattle.protocol.specs.Listing.{read_listing, lay_listing};
ghost use Rattle.protocol.specs.Page.{read_page, lay_page};
ghost use Rattle.protocol.specs.Pieces.{many};
ghost use Rattle.protocol.specs.Profile.{read_profile, lay_profile};
ghost use Rattle.protocol.specs.Ready.{read_ready, lay_ready};
ghost use Rattle.protocol.specs.Reply.{finish, reply_on, read_reply, lay_reply};
ghost use Rattle.protocol.specs.Said.{read_entry, lay};
ghost use Rattle.protocol.specs.Startup.{read_startup, lay_startup};
ghost use Rattle.protocol.specs.Types.{read_types, lay_types};

use crate::entry::Entry;
use crate::fields::{read_digest, read_flag, read_known};
use crate::memory::Memory;
use crate::message::{
    Claim, ControlOp, ControlReply, ErrorCode, Message, Mode, Pair, Predicate, Span, Step,
};
use crate::rows::read_rows;
use varint::error::{Mismatch, Refusal};
use varint::fixed::{get_u32_le, get_u64_le};
use varint::get_u64;
use varint::run::{fill_run, skim_run};
use varint::utf8::is_utf8;

// Bytes left over at place `at` are refused.
#[inline(always)]
fn at_end(s: &[u8], at: usize) -> Result<(), Refusal>
    ensures { result ≡ at_end s.now at }
{
    if at < s.len() {
        return Err(Refusal::TrailingBytes((s.len() - at) as u64));
    }
    Ok(())
}

#[inline(always)]
#[tactic(auto, unfolding(crate::specs::Ready::read_ready, crate::specs::Ready::lay_ready, crate::specs::Inner::Loading::bare))]
pub(crate) fn read_ready(s: &[u8]) -> Result<Message, Refusal>
    ensures { result ≡ bare (laid_as lay_ready (read_ready s.now)) }
{
    let (version, p) = get_u64(s, 0)?;
    let (schema_fingerprint, q) = get_u64(s, p)?;
    let (predicates, end) = get_u64(s, q)?;
    at_end(s, end)?;
    let Ok(version) = u32::try_from(version) else {
        return Err(Refusal::TypeMismatch(Mismatch::Version));
    };
    Ok(Message::Ready {
        version,
        schema_fingerprint,
        predicates,
    })
}

#[inline(always)]
#[tactic(auto, unfolding(crate::specs::Complete::read_complete, crate::specs::Complete::lay_complete, crate::specs::Inner::Loading::bare))]
pub(crate) fn read_complete(s: &[u8]) -> Result<Message, Refusal>
    ensures { result ≡ bare (laid_as lay_complete (read_complete s.now)) }
{
    let (first, p) = get_u64(s, 0)?;
    let (second, end) = get_u64(s, p)?;
    at_end(s, end)?;
    Ok(Message::Complete { first, second })
}

#[inline(always)]
#[tactic(auto, unfolding(crate::specs::Listing::read_listing, crate::specs::Listing::lay_listing, crate::specs::Inner::Loading::bare))]
pub(crate) fn read_listing_digest(s: &[u8]) -> Result<Message, Refusal>
    ensures { result ≡ bare (laid_as lay_listing (read_listing s.now)) }
{
    let (number, p) = get_u64(s, 0)?;
    let Ok(predicate) = u32::try_from(number) else {
        return Err(Refusal::BadListingPredicate(number));
    };
    let (digest, end) = get_u64(s, p)?;
    at_end(s, end)?;
    Ok(Message::ListingDigest { predicate, digest })
}

#[inline(always)]
#[tactic(auto, unfolding(crate::specs::Error::read_error, crate::specs::Inner::Loading::told, crate::specs::Inner::Loading::load))]
fn read_error(s: &[u8], memory: &mut Memory<'_>) -> Result<Message, Refusal>
    requires empty { Empty memory.old }
    requires again { Again memory.old.check (read_error s.now) }
    ensures { ReadsInto (laid_as lay_error (read_error s.now)) memory.old memory.new result }
{
    let (code, p) = read_known::<ErrorCode>(s, 0, Mismatch::ErrorCode)?;
    let (text, _) = memory.text(s, p)?;
    Ok(Message::Error { code, text })
}

#[inline(always)]
#[tactic(auto, unfolding(crate::specs::Control::read_control, crate::specs::Inner::Loading::told, crate::specs::Inner::Loading::load))]
fn read_control(s: &[u8], memory: &mut Memory<'_>) -> Result<Message, Refusal>
    requires empty { Empty memory.old }
    requires again { Again memory.old.check (read_control s.now) }
    ensures { ReadsInto (laid_as lay_control (read_control s.now)) memory.old memory.new result }
{
    let (op, p) = read_known::<ControlOp>(s, 0, Mismatch::ControlOp)?;
    let (database, q) = memory.name(s, p)?;
    let (allow_zero_facts, r) = read_flag(s, q, Mismatch::ControlFlag)?;
    let (schema, end) = memory.text(s, r)?;
    at_end(s, end)?;
    Ok(Message::Control {
        op,
        database,
        allow_zero_facts,
        schema,
    })
}

#[inline(always)]
#[tactic(auto, unfolding(crate::specs::Inner::Loading::told, crate::specs::Inner::Loading::load))]
fn read_created(s: &[u8], at: usize, memory: &mut Memory<'_>) -> Result<Message, Refusal>
    requires empty { Empty memory.old }
    requires again { Again memory.old.check (ended s.now (reply_on Create s.now at)) }
    ensures { ReadsInto (laid_as lay_reply (ended s.now (reply_on Create s.now at))) memory.old memory.new result }
{
    let (instance, end) = memory.name(s, at)?;
    at_end(s, end)?;
    Ok(Message::Reply(ControlReply::Created { instance }))
}

#[inline(always)]
#[tactic(auto, unfolding(crate::specs::Reply::lay_reply, crate::specs::Inner::Loading::bare))]
fn read_finished(s: &[u8], at: usize) -> Result<Message, Refusal>
    ensures { result ≡ bare (laid_as lay_finished (ended s.now (finish.read s.now at))) }
{
    let (fingerprint, p) = get_u64(s, at)?;
    let (facts, q) = get_u64(s, p)?;
    let (bytes, r) = get_u64(s, q)?;
    let (already_complete, end) = read_flag(s, r, Mismatch::AlreadyComplete)?;
    at_end(s, end)?;
    Ok(Message::Reply(ControlReply::Finished {
        fingerprint,
        facts,
        bytes,
        already_complete,
    }))
}

#[inline(always)]
#[tactic(auto, unfolding(crate::specs::Reply::read_reply, crate::specs::Inner::Loading::told, crate::specs::Inner::Loading::load))]
fn read_control_reply(s: &[u8], memory: &mut Memory<'_>) -> Result<Message, Refusal>
    requires empty { Empty memory.old }
    requires again { Again memory.old.check (read_reply s.now) }
    ensures { ReadsInto (laid_as lay_reply (read_reply s.now)) memory.old memory.new result }
{
    let (op, next) = read_known::<ControlOp>(s, 0, Mismatch::ControlOp)?;
    match op {
        ControlOp::Create => read_created(s, next, memory),
        ControlOp::Finish => read_finished(s, next),
        ControlOp::Remove => {
            at_end(s, next)?;
            Ok(Message::Reply(ControlReply::Removed))
        }
    }
}

// The cursor and the query behind it stand in the payload as they do in text, so they are copied at once.
#[inline(always)]
#[tactic(auto, unfolding(crate::specs::Page::read_page, crate::specs::Inner::Loading::told, crate::specs::Inner::Loading::load))]
fn read_page(s: &[u8], memory: &mut Memory<'_>) -> Result<Message, Refusal>
    requires empty { Empty memory.old }
    requires again { Again memory.old.check (read_page s.now) }
    ensures { ReadsInto (laid_as lay_page (read_page s.now)) memory.old memory.new result }
{
    let (limit, p) = get_u64_le(s, 0)?;
    let (len, q) = get_u32_le(s, p)?;
    let rest = s.len() - q;
    if (rest as u64) < len {
        return Err(Refusal::UnexpectedEof);
    }
    let size = len as usize;
    if memory.check && !is_utf8(s, q + size, rest - size) {
        return Err(Refusal::BadString);
    }
    let both = Span {
        start: q,
        len: rest,
    };
    memory.store_text(s, both);
    Ok(Message::Page {
        limit,
        cursor: Span {
            start: 0,
            len: size,
        },
        query: Span {
            start: size,
            len: rest - size,
        },
    })
}

// The `count` ids from place `at` on: the reading that checks passes them, and the other stores them. They are the message's only rows.
#[inline(always)]
#[tactic(auto, using(crate::proofs::RowMessages::ids_loaded))]
fn run_ids(s: &[u8], at: usize, count: u64, memory: &mut Memory<'_>) -> Result<usize, Refusal>
    requires { Empty memory.old }
    ensures { Loads past (many lay_id) (read_times varint count s.now at) memory.old memory.new result }
{
    memory.r = count as usize;
    if memory.check {
        return skim_run(s, at, count);
    }
    fill_run(s, at, count, memory.rows)
}

#[inline(always)]
#[tactic(auto, unfolding(crate::specs::Ids::read_ids, crate::specs::Inner::Loading::told, crate::specs::Inner::Loading::load))]
fn read_ids(s: &[u8], memory: &mut Memory<'_>) -> Result<Message, Refusal>
    requires { Empty memory.old }
    ensures { ReadsInto (laid_as lay_ids (read_ids s.now)) memory.old memory.new result }
{
    let (count, p) = get_u64(s, 0)?;
    run_ids(s, p, count, memory)?;
    Ok(Message::Ids { count })
}

#[inline(always)]
#[tactic(auto, using(varint::proofs::FormatParts::num_inside), unfolding(crate::specs::Types::read_types, crate::specs::Inner::Loading::told, crate::specs::Inner::Loading::load))]
fn read_types(s: &[u8], memory: &mut Memory<'_>) -> Result<Message, Refusal>
    requires empty { Empty memory.old }
    requires again { Again memory.old.check (read_types memory.old.limit s.now) }
    ensures { ReadsInto (laid_as lay_types (read_types memory.old.limit s.now)) memory.old memory.new result }
{
    let (count, p) = get_u64(s, 0)?;
    read_rows::<Predicate>(count, s, p, memory)?;
    Ok(Message::Types { count })
}

#[inline(always)]
#[tactic(auto, using(varint::proofs::FormatParts::num_inside), unfolding(crate::specs::Profile::read_profile, crate::specs::Inner::Loading::told, crate::specs::Inner::Loading::load))]
fn read_profile(s: &[u8], memory: &mut Memory<'_>) -> Result<Message, Refusal>
    requires empty { Empty memory.old }
    requires again { Again memory.old.check (read_profile s.now) }
    ensures { ReadsInto (laid_as lay_profile (read_profile s.now)) memory.old memory.new result }
{
    let (steps, p) = get_u64(s, 0)?;
    let length = s.len() as u64;
    if length < steps {
        return Err(Refusal::LengthOutOfRange {
            declared: steps,
            available: length,
        });
    }
    let end = read_rows::<Step>(steps, s, p, memory)?;
    at_end(s, end)?;
    Ok(Message::Profile { steps })
}

#[inline(always)]
#[tactic(auto, using(varint::proofs::FormatParts::num_inside), unfolding(crate::specs::Fetch::read_fetch, crate::specs::Inner::Loading::told, crate::specs::Inner::Loading::load))]
fn read_fetch(s: &[u8], memory: &mut Memory<'_>) -> Result<Message, Refusal>
    requires empty { Empty memory.old }
    requires again { Again memory.old.check (read_fetch s.now) }
    ensures { ReadsInto (laid_as lay_fetch (read_fetch s.now)) memory.old memory.new result }
{
    let (digest, next) = read_digest(s, 0)?;
    let (count, p) = get_u64(s, next)?;
    if Message::MAX_FETCH < count {
        return Err(Refusal::too_large(count, Message::MAX_FETCH));
    }
    let end = read_rows::<Pair>(count, s, p, memory)?;
    at_end(s, end)?;
    Ok(Message::Fetch { digest, count })
}

#[inline(always)]
#[tactic(auto, using(varint::proofs::FormatParts::num_inside), unfolding(crate::specs::Startup::read_startup, crate::specs::Inner::Loading::told, crate::specs::Inner::Loading::load))]
fn read_startup(s: &[u8], memory: &mut Memory<'_>) -> Result<Message, Refusal>
    requires empty { Empty memory.old }
    requires again { Again memory.old.check (read_startup s.now) }
    ensures { ReadsInto (laid_as lay_startup (read_startup s.now)) memory.old memory.new result }
{
    let (number, p) = get_u64(s, 0)?;
    let (database, q) = memory.name(s, p)?;
    let (mode, r) = read_known::<Mode>(s, q, Mismatch::Mode)?;
    let (schema_fingerprint, u) = get_u64(s, r)?;
    let (claims, v) = get_u64(s, u)?;
    let end = read_rows::<Claim>(claims, s, v, memory)?;
    at_end(s, end)?;
    let Ok(version) = u32::try_from(number) else {
        return Err(Refusal::TypeMismatch(Mismatch::Version));
    };
    Ok(Message::Startup {
        version,
        database,
        mode,
        schema_fingerprint,
        claims,
    })
}

// The message of a payload that an entry names, one of those that take memory: the three others are read without one, in lib.rt, and stand not here: with
// all twelve the compiler no longer inlines this, and a startup takes a tenth more time. A `match`, since the wire says which.
#[inline(always)]
#[tactic(auto, unfolding(crate::specs::Said::read_entry, crate::specs::Said::lay))]
pub(crate) fn read_message(
    entry: Entry,
    s: &[u8],
    memory: &mut Memory<'_>,
) -> Result<Message, Refusal>
    requires roomy { RoomyEntry (entry_number entry) }
    requires empty { Empty memory.old }
    requires again { Again memory.old.check (read_entry memory.old.limit (entry_number entry) s.now) }
    ensures { ReadsInto (laid_as lay (read_entry memory.old.limit (entry_number entry) s.now)) memory.old memory.new result }
{
    match entry {
        Entry::Startup => read_startup(s, memory),
        Entry::Error => read_error(s, memory),
        Entry::Ids => read_ids(s, memory),
        Entry::Types => read_types(s, memory),
        Entry::Control => read_control(s, memory),
        Entry::Reply => read_control_reply(s, memory),
        Entry::Profile => read_profile(s, memory),
        Entry::Page => read_page(s, memory),
        _ => read_fetch(s, memory),
    }
}
