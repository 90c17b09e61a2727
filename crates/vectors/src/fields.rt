// A message as seven numbers: the number of the message, 0 for an opaque payload, and its fields in their order; a text is two of them, its start and its
// length. A control reply's first field is its op, a fetch's whether it has a digest. What is over is 0. They are told and read apart from the gateway's,
// so that the one shows what the other might have wrong.
use crate::fault::Fault;
use crate::request::clip;
use protocol::message::{ControlReply, Message, Span};

pub type Fields = [u64; 7];

fn fields_of_reply(reply: ControlReply) -> Fields {
    match reply {
        ControlReply::Created { instance: i } => [8, 1, i.start as u64, i.len as u64, 0, 0, 0],
        ControlReply::Finished {
            fingerprint,
            facts,
            bytes,
            already_complete: done,
        } => [8, 2, fingerprint, facts, bytes, done.into(), 0],
        ControlReply::Removed => [8, 3, 0, 0, 0, 0, 0],
    }
}

pub fn fields_of(message: Message) -> Fields {
    match message {
        Message::Opaque { payload: p } => [0, p.start as u64, p.len as u64, 0, 0, 0, 0],
        Message::Startup {
            version,
            database: d,
            mode,
            schema_fingerprint: f,
            claims,
        } => [
            1,
            version.into(),
            d.start as u64,
            d.len as u64,
            mode as u64,
            f,
            claims,
        ],
        Message::Ready {
            version,
            schema_fingerprint: f,
            predicates,
        } => [2, version.into(), f, predicates, 0, 0, 0],
        Message::Error { code, text: t } => [3, code as u64, t.start as u64, t.len as u64, 0, 0, 0],
        Message::Complete { first, second } => [4, first, second, 0, 0, 0, 0],
        Message::Ids { count } => [5, count, 0, 0, 0, 0, 0],
        Message::Types { count } => [6, count, 0, 0, 0, 0, 0],
        Message::Control {
            op,
            database: d,
            allow_zero_facts: z,
            schema: s,
        } => [
            7,
            op as u64,
            d.start as u64,
            d.len as u64,
            z.into(),
            s.start as u64,
            s.len as u64,
        ],
        Message::Reply(reply) => fields_of_reply(reply),
        Message::Profile { steps } => [9, steps, 0, 0, 0, 0, 0],
        Message::Page {
            limit,
            cursor: c,
            query: q,
        } => [
            10,
            limit,
            c.start as u64,
            c.len as u64,
            q.start as u64,
            q.len as u64,
            0,
        ],
        Message::Fetch { digest: d, count } => {
            [11, d.is_some().into(), d.unwrap_or(0), count, 0, 0, 0]
        }
        Message::ListingDigest { predicate, digest } => {
            [12, predicate.into(), digest, 0, 0, 0, 0]
        }
    }
}

// A field that is a byte on the wire.
fn code<T: TryFrom<u8>>(n: u64) -> Result<T, Fault>
where
    T::Error: Drop,
{
    let byte = u8::try_from(n).map_err(|_| Fault::Malformed)?;
    T::try_from(byte).map_err(|_| Fault::Malformed)
}

fn reply_of(fields: Fields) -> Result<ControlReply, Fault> {
    Ok(match fields {
        [_, 1, start, len, ..] => ControlReply::Created {
            instance: Span::of(start, len),
        },
        [_, 2, fingerprint, facts, bytes, complete, _] => ControlReply::Finished {
            fingerprint,
            facts,
            bytes,
            already_complete: complete == 1,
        },
        [_, 3, ..] => ControlReply::Removed,
        _ => return Err(Fault::Malformed),
    })
}

pub fn message_of(fields: Fields) -> Result<Message, Fault> {
    Ok(match fields {
        [0, start, len, ..] => Message::Opaque {
            payload: Span::of(start, len),
        },
        [1, version, start, len, mode, schema_fingerprint, claims] => Message::Startup {
            version: clip(version, u32::MAX),
            database: Span::of(start, len),
            mode: code(mode)?,
            schema_fingerprint,
            claims,
        },
        [2, version, schema_fingerprint, predicates, ..] => Message::Ready {
            version: clip(version, u32::MAX),
            schema_fingerprint,
            predicates,
        },
        [3, number, start, len, ..] => Message::Error {
            code: code(number)?,
            text: Span::of(start, len),
        },
        [4, first, second, ..] => Message::Complete { first, second },
        [5, count, ..] => Message::Ids { count },
        [6, count, ..] => Message::Types { count },
        [7, op, d, d_len, zero, s, s_len] => Message::Control {
            op: code(op)?,
            database: Span::of(d, d_len),
            allow_zero_facts: zero == 1,
            schema: Span::of(s, s_len),
        },
        [8, ..] => Message::Reply(reply_of(fields)?),
        [9, steps, ..] => Message::Profile { steps },
        [10, limit, c, c_len, q, q_len, _] => Message::Page {
            limit,
            cursor: Span::of(c, c_len),
            query: Span::of(q, q_len),
        },
        [11, has_digest, digest, count, ..] => Message::Fetch {
            digest: (has_digest == 1).then_some(digest),
            count,
        },
        [12, predicate, digest, ..] => Message::ListingDigest {
            predicate: clip(predicate, u32::MAX),
            digest,
        },
        _ => return Err(Fault::Malformed),
    })
}
