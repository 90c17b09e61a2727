// Messages as numbers, and back: a message's number, 1 to 12 or 0 for an opaque payload, and six fields.
#![tactic(auto, unfolding(crate::specs::Numbers::message_of, crate::specs::Numbers::message_from, crate::specs::Numbers::is_message))]

ghost use Rattle.std.specs.Prelude.{◌≡◌, ◌<◌};
ghost use Rattle.varint.specs.Choice.{pick};
ghost use Rattle.protocol.specs.Entries.{entry_number};
ghost use Rattle.protocol.specs.Fields.{narrow, yes};
ghost use Rattle.gateway.specs.Inner.Knowing.{Known};
ghost use Rattle.gateway.specs.Numbers.{number_of, reply_fields, fetch_fields, fields_of, span_at, is_flag, message_of};

use protocol::entry::Entry;
use protocol::message::{ControlOp, ControlReply, Message, Span};
use varint::error::Refusal;

// Which of the twelve a message is; an opaque payload is 0. C is told the number.
pub(crate) fn number_of(message: Message) -> u64
    ensures { result ≡ number_of message }
{
    match message {
        Message::Startup { .. } => Entry::Startup as u64,
        Message::Ready { .. } => Entry::Ready as u64,
        Message::Error { .. } => Entry::Error as u64,
        Message::Complete { .. } => Entry::Complete as u64,
        Message::Ids { .. } => Entry::Ids as u64,
        Message::Types { .. } => Entry::Types as u64,
        Message::Control { .. } => Entry::Control as u64,
        Message::Reply(_) => Entry::Reply as u64,
        Message::Profile { .. } => Entry::Profile as u64,
        Message::Page { .. } => Entry::Page as u64,
        Message::Fetch { .. } => Entry::Fetch as u64,
        Message::ListingDigest { .. } => Entry::ListingDigest as u64,
        Message::Opaque { .. } => 0,
    }
}

fn reply_fields(reply: ControlReply) -> [u64; 6]
    ensures { result ≡ reply_fields reply }
{
    match reply {
        ControlReply::Created { instance: i } => [
            ControlOp::Create as u64,
            i.start as u64,
            i.len as u64,
            0,
            0,
            0,
        ],
        ControlReply::Finished {
            fingerprint,
            facts,
            bytes,
            already_complete,
        } => [
            ControlOp::Finish as u64,
            fingerprint,
            facts,
            bytes,
            u64::from(already_complete),
            0,
        ],
        ControlReply::Removed => [ControlOp::Remove as u64, 0, 0, 0, 0, 0],
    }
}

fn fetch_fields(digest: Option<u64>, count: u64) -> [u64; 6]
    ensures { result ≡ fetch_fields digest count }
{
    match digest {
        None => [0, 0, count, 0, 0, 0],
        Some(d) => [1, d, count, 0, 0, 0],
    }
}

// The fields of a message in order, and zeros after them; a text is its start and its length.
pub(crate) fn fields_of(message: Message) -> [u64; 6]
    ensures { result ≡ fields_of message }
{
    match message {
        Message::Startup {
            version,
            database: d,
            mode,
            schema_fingerprint: f,
            claims,
        } => [
            u64::from(version),
            d.start as u64,
            d.len as u64,
            u64::from(u8::from(mode)),
            f,
            claims,
        ],
        Message::Ready {
            version,
            schema_fingerprint,
            predicates,
        } => [u64::from(version), schema_fingerprint, predicates, 0, 0, 0],
        Message::Error { code, text: t } => [
            u64::from(u8::from(code)),
            t.start as u64,
            t.len as u64,
            0,
            0,
            0,
        ],
        Message::Complete { first, second } => [first, second, 0, 0, 0, 0],
        Message::Ids { count } => [count, 0, 0, 0, 0, 0],
        Message::Types { count } => [count, 0, 0, 0, 0, 0],
        Message::Control {
            op,
            database: d,
            allow_zero_facts,
            schema: s,
        } => [
            u64::from(u8::from(op)),
            d.start as u64,
            d.len as u64,
            u64::from(allow_zero_facts),
            s.start as u64,
            s.len as u64,
        ],
        Message::Reply(reply) => reply_fields(reply),
        Message::Profile { steps } => [steps, 0, 0, 0, 0, 0],
        Message::Page {
            limit,
            cursor: c,
            query: q,
        } => [
            limit,
            c.start as u64,
            c.len as u64,
            q.start as u64,
            q.len as u64,
            0,
        ],
        Message::Fetch { digest, count } => fetch_fields(digest, count),
        Message::ListingDigest { predicate, digest } => [u64::from(predicate), digest, 0, 0, 0, 0],
        Message::Opaque { payload } => [payload.start as u64, payload.len as u64, 0, 0, 0, 0],
    }
}

// The text whose start and length stand in the fields from number `k` on.
fn span_at(f: &[u64; 6], k: usize) -> Span
    requires { k < 5 }
    ensures { result ≡ span_at f.now k }
{
    Span::of(f[k], f[k + 1])
}

// The mode, the code or the op whose byte a number is.
fn known<T: TryFrom<u8, Error = Refusal>>(n: u64) -> Option<T>
    ensures { Known T.try_from_gives n result }
{
    let byte = u8::try_from(n).ok()?;
    T::try_from(byte).ok()
}

// A number of 32 bits.
fn narrowed(n: u64) -> Option<u32>
    ensures { result ≡ pick (narrow n) (Some n) None }
{
    u32::try_from(n).ok()
}

// A flag is 0 or 1.
fn flag(n: u64) -> Option<bool>
    ensures { result ≡ pick (is_flag n) (Some (yes n)) None }
{
    match n {
        0 => Some(false),
        1 => Some(true),
        _ => None,
    }
}

fn find_startup(f: &[u64; 6]) -> Option<Message>
    ensures { result ≡ message_of 1 f.now }
{
    let version = narrowed(f[0])?;
    let mode = known(f[3])?;
    Some(Message::Startup {
        version,
        database: span_at(f, 1),
        mode,
        schema_fingerprint: f[4],
        claims: f[5],
    })
}

fn find_ready(f: &[u64; 6]) -> Option<Message>
    ensures { result ≡ message_of 2 f.now }
{
    let version = narrowed(f[0])?;
    Some(Message::Ready {
        version,
        schema_fingerprint: f[1],
        predicates: f[2],
    })
}

fn find_error(f: &[u64; 6]) -> Option<Message>
    ensures { result ≡ message_of 3 f.now }
{
    let code = known(f[0])?;
    Some(Message::Error {
        code,
        text: span_at(f, 1),
    })
}

fn find_control(f: &[u64; 6]) -> Option<Message>
    ensures { result ≡ message_of 7 f.now }
{
    let op = known(f[0])?;
    let allow_zero_facts = flag(f[3])?;
    Some(Message::Control {
        op,
        database: span_at(f, 1),
        allow_zero_facts,
        schema: span_at(f, 4),
    })
}

fn find_reply(f: &[u64; 6]) -> Option<Message>
    ensures { result ≡ message_of 8 f.now }
{
    match known(f[0])? {
        ControlOp::Create => Some(Message::Reply(ControlReply::Created {
            instance: span_at(f, 1),
        })),
        ControlOp::Finish => {
            let already_complete = flag(f[4])?;
            Some(Message::Reply(ControlReply::Finished {
                fingerprint: f[1],
                facts: f[2],
                bytes: f[3],
                already_complete,
            }))
        }
        ControlOp::Remove => Some(Message::Reply(ControlReply::Removed)),
    }
}

fn find_fetch(f: &[u64; 6]) -> Option<Message>
    ensures { result ≡ message_of 11 f.now }
{
    let has_digest = flag(f[0])?;
    Some(Message::Fetch {
        digest: has_digest.then_some(f[1]),
        count: f[2],
    })
}

fn find_listing_digest(f: &[u64; 6]) -> Option<Message>
    ensures { result ≡ message_of 12 f.now }
{
    let predicate = narrowed(f[0])?;
    Some(Message::ListingDigest {
        predicate,
        digest: f[1],
    })
}

// The message that an entry names, of these fields, if there is one. A `match`, since C says which.
pub(crate) fn message_of(entry: Entry, f: &[u64; 6]) -> Option<Message>
    ensures { result ≡ message_of (entry_number entry) f.now }
{
    match entry {
        Entry::Startup => find_startup(f),
        Entry::Ready => find_ready(f),
        Entry::Error => find_error(f),
        Entry::Complete => Some(Message::Complete {
            first: f[0],
            second: f[1],
        }),
        Entry::Ids => Some(Message::Ids { count: f[0] }),
        Entry::Types => Some(Message::Types { count: f[0] }),
        Entry::Control => find_control(f),
        Entry::Reply => find_reply(f),
        Entry::Profile => Some(Message::Profile { steps: f[0] }),
        Entry::Page => Some(Message::Page {
            limit: f[0],
            cursor: span_at(f, 1),
            query: span_at(f, 3),
        }),
        Entry::Fetch => find_fetch(f),
        Entry::ListingDigest => find_listing_digest(f),
    }
}
