// Writing a message that was found to be one that can be written: nothing of it is tested here.
ghost use Rattle.std.specs.Prelude.{◌≡◌, ◌<◌, ◌≤◌, length, Ok};
ghost use Rattle.varint.specs.Inner.Again.{Accepted};
ghost use Rattle.desc.specs.Emitting.{put_name, put_number};
ghost use Rattle.desc.specs.Inner.Emission.{put_at};
ghost use Rattle.desc.specs.Table.{table};
ghost use Rattle.protocol_write.specs.Inner.Checking.{row_count, nodes_fine, RowsFine, ValueLaid, fine};
ghost use Rattle.protocol_write.specs.Inner.Writing.{Writes, put_byte, put_flag, put_fixed, put_two, put_text, put_labelled, put_value, put_rows, put_counted, put_tagged, put_startup, put_control, put_finished, put_reply, put_page, put_digest, put_head, put_body, put_message};

use crate::checks::cut_rows;
use crate::columns;
use crate::lent::Lent;
use crate::rows::{SentRow, span_at};
use desc::inner::put_desc;
use desc::write::{put_name, put_number};
use protocol::message::{
    Claim, ControlOp, ControlReply, Id, Message, Mode, Pair, Predicate, Span, Step,
};
use varint::store::{copy_bytes, store};

// What is written, a buffer, and how far it is written. (desc has a `Writer` too, for a descriptor's walk. Messages have steps of their own.) What lies past the buffer's end is not stored, and the place still moves on, so with an empty buffer this
// tells the size.
#[derive(Drop)]
pub(crate) struct Writer<'a> {
    pub(crate) lent: &'a Lent<'a>,
    pub(crate) out: &'a mut [u8],
    pub(crate) at: usize,
}

impl Writer<'_> {
    #[tactic(auto, unfolding(crate::specs::Inner::Writing::put_byte, desc::specs::Emitting::put_bytes))]
    fn push(&mut self, b: u8)
        ensures { Writes (put_byte b) self.old self.new }
    {
        store(self.out, self.at, b);
        self.at = self.at.saturating_add(1);
    }

    #[tactic(auto, unfolding(crate::specs::Inner::Writing::put_flag))]
    pub(crate) fn flag(&mut self, yes: bool)
        ensures { Writes (put_flag yes) self.old self.new }
    {
        self.push(u8::from(yes));
    }

    // The N low bytes of `v`, the least first: a length that has more is that of a message that is too long to be written.
    #[tactic(auto, using(varint::proofs::FixedLaws::length_put_le, crate::proofs::WriteSteps::low_bytes), unfolding(crate::specs::Inner::Writing::put_fixed, desc::specs::Emitting::put_bytes))]
    fn fixed<const N: usize>(&mut self, v: u64)
        requires { N ≤ 8 }
        ensures { Writes (put_fixed N v) self.old self.new }
    {
        copy_bytes(&v.to_le_bytes(), 0, N, self.out, self.at);
        self.at = self.at.saturating_add(N);
    }

    // Inlined, like `two`, so that the place stays in a register where rows are looped over.
    #[inline(always)]
    pub(crate) fn varint(&mut self, v: u64)
        ensures { Writes (put_number v) self.old self.new }
    {
        self.at = put_number(self.out, self.at, v);
    }

    #[inline(always)]
    #[tactic(auto, unfolding(crate::specs::Inner::Writing::put_two))]
    pub(crate) fn two(&mut self, v: u64, w: u64)
        ensures { Writes (put_two v w) self.old self.new }
    {
        self.varint(v);
        self.varint(w);
    }

    fn raw(&mut self, span: Span)
        ensures { Writes (put_name self.old.lent.now.text.now (span.start, span.len)) self.old self.new }
    {
        self.at = put_name(self.lent.text, span, self.out, self.at);
    }

    #[tactic(auto, unfolding(crate::specs::Inner::Writing::put_text))]
    pub(crate) fn text(&mut self, span: Span)
        ensures { Writes (put_text self.old.lent.now.text.now span.start span.len) self.old self.new }
    {
        self.varint(span.len as u64);
        self.raw(span);
    }

    // The descriptor whose root is node `n`.
    pub(crate) fn desc(&mut self, n: usize)
        requires { Accepted (table self.old.lent.now.limit self.old.lent.now.nodes.now n 0) }
        ensures { Writes (put_at self.old.lent.now.text.now (table self.old.lent.now.limit self.old.lent.now.nodes.now n 0)) self.old self.new }
    {
        let lent = self.lent;
        self.at = put_desc(lent.text, lent.nodes, n, lent.limit, self.out, self.at);
    }

    // Whether a type has a value, and the value, whose root is node `root`.
    #[tactic(auto, unfolding(crate::specs::Inner::Writing::put_value))]
    pub(crate) fn value(&mut self, root: Option<usize>)
        requires { ValueLaid self.old.lent.now.limit self.old.lent.now.nodes.now root }
        ensures { Writes (put_value self.old.lent.now.limit self.old.lent.now.text.now self.old.lent.now.nodes.now root) self.old self.new }
    {
        self.flag(root.is_some());
        if let Some(n) = root {
            self.desc(n);
        }
    }

    // The text of a claim or a step, and the number after it.
    #[tactic(auto, unfolding(crate::specs::Inner::Writing::put_labelled))]
    pub(crate) fn labelled(&mut self, row: &[u64])
        requires { 2 < length row.now }
        ensures { Writes (put_labelled self.old.lent.now.text.now row.now 0) self.old self.new }
    {
        self.text(span_at(row, columns::LABEL_NAME));
        self.varint(row[columns::LABEL_NUMBER]);
    }

    #[tactic(auto, using(crate::proofs::RowLoops::put_turn, crate::proofs::RowLoops::put_end, crate::proofs::RowsLaid::rows_laid, crate::proofs::RowsLaid::first_laid, crate::proofs::RowsLaid::others_laid))]
    fn rows<R: SentRow>(&mut self, rows: &[u64])
        requires { nodes_fine R.KIND self.old.lent.now.limit rows.now self.old.lent.now.nodes.now (row_count R.KIND rows.now) ≡ Ok tt }
        ensures { Writes (put_rows R.KIND self.old.lent.now.limit self.old.lent.now.text.now rows.now self.old.lent.now.nodes.now (row_count R.KIND rows.now) 0) self.old self.new }
    {
        for row in rows.chunks_exact(R::width()) {
            R::write(row, self);
        }
    }

    // A count and so many rows.
    #[tactic(auto, unfolding(crate::specs::Inner::Writing::put_counted), using(crate::proofs::RowLoops::cut_put, crate::proofs::RowsLaid::cut_nodes))]
    pub(crate) fn counted<R: SentRow>(&mut self, count: u64)
        requires { RowsFine R.KIND self.old.lent.now.limit self.old.lent.now.rows.now self.old.lent.now.nodes.now count }
        ensures { Writes (put_counted R.KIND self.old.lent.now.limit self.old.lent.now.text.now self.old.lent.now.rows.now self.old.lent.now.nodes.now count) self.old self.new }
    {
        self.varint(count);
        self.rows::<R>(cut_rows::<R>(self.lent.rows, count));
    }

    // A byte and a text.
    #[tactic(auto, unfolding(crate::specs::Inner::Writing::put_tagged))]
    fn tagged(&mut self, b: u8, span: Span)
        ensures { Writes (put_tagged b span self.old.lent.now.text.now) self.old self.new }
    {
        self.push(b);
        self.text(span);
    }

    // A startup up to its claims.
    #[tactic(auto, unfolding(crate::specs::Inner::Writing::put_startup))]
    fn startup(&mut self, version: u32, database: Span, mode: Mode, fingerprint: u64)
        ensures { Writes (put_startup version database mode fingerprint self.old.lent.now.text.now) self.old self.new }
    {
        self.varint(u64::from(version));
        self.text(database);
        self.push(u8::from(mode));
        self.varint(fingerprint);
    }

    #[tactic(auto, unfolding(crate::specs::Inner::Writing::put_control))]
    fn control(&mut self, op: ControlOp, database: Span, allow: bool, schema: Span)
        ensures { Writes (put_control op database allow schema self.old.lent.now.text.now) self.old self.new }
    {
        self.tagged(u8::from(op), database);
        self.flag(allow);
        self.text(schema);
    }

    #[tactic(auto, unfolding(crate::specs::Inner::Writing::put_finished))]
    fn finished(&mut self, fingerprint: u64, facts: u64, bytes: u64, complete: bool)
        ensures { Writes (put_finished fingerprint facts bytes complete) self.old self.new }
    {
        self.push(u8::from(ControlOp::Finish));
        self.two(fingerprint, facts);
        self.varint(bytes);
        self.flag(complete);
    }

    #[inline(always)]
    #[tactic(auto, unfolding(crate::specs::Inner::Writing::put_reply))]
    fn reply(&mut self, reply: ControlReply)
        ensures { Writes (put_reply reply self.old.lent.now.text.now) self.old self.new }
    {
        match reply {
            ControlReply::Created { instance } => {
                self.tagged(u8::from(ControlOp::Create), instance)
            }
            ControlReply::Finished {
                fingerprint,
                facts,
                bytes,
                already_complete,
            } => self.finished(fingerprint, facts, bytes, already_complete),
            ControlReply::Removed => self.push(u8::from(ControlOp::Remove)),
        }
    }

    #[tactic(auto, unfolding(crate::specs::Inner::Writing::put_page))]
    fn page(&mut self, most: u64, cursor: Span, query: Span)
        ensures { Writes (put_page most cursor query self.old.lent.now.text.now) self.old self.new }
    {
        self.fixed::<8>(most);
        self.fixed::<4>(cursor.len as u64);
        self.raw(cursor);
        self.raw(query);
    }

    #[tactic(auto, unfolding(crate::specs::Inner::Writing::put_digest, crate::specs::Inner::Writing::put_flag))]
    fn digest(&mut self, digest: Option<u64>)
        ensures { Writes (put_digest digest) self.old self.new }
    {
        match digest {
            None => self.flag(false),
            Some(d) => {
                self.flag(true);
                self.varint(d);
            }
        }
    }

    // A message up to its rows. It is inlined, as `reply` and `body` are: else a short message takes a fifth more time.
    #[inline(always)]
    #[tactic(auto, unfolding(crate::specs::Inner::Writing::put_head))]
    pub(crate) fn head(&mut self, message: &Message)
        ensures { Writes (put_head message.now self.old.lent.now.text.now) self.old self.new }
    {
        match *message {
            Message::Startup {
                version,
                database,
                mode,
                schema_fingerprint,
                ..
            } => self.startup(version, database, mode, schema_fingerprint),
            Message::Ready {
                version,
                schema_fingerprint,
                predicates,
            } => {
                self.two(u64::from(version), schema_fingerprint);
                self.varint(predicates)
            }
            Message::Error { code, text: span } => self.tagged(u8::from(code), span),
            Message::Complete { first, second } => self.two(first, second),
            Message::Control {
                op,
                database,
                allow_zero_facts,
                schema,
            } => self.control(op, database, allow_zero_facts, schema),
            Message::Reply(reply) => self.reply(reply),
            Message::Page {
                limit: most,
                cursor,
                query,
            } => self.page(most, cursor, query),
            Message::Fetch { digest, .. } => self.digest(digest),
            Message::ListingDigest { predicate, digest } => self.two(u64::from(predicate), digest),
            Message::Opaque { payload } => self.raw(payload),
            Message::Ids { .. } | Message::Types { .. } | Message::Profile { .. } => {}
        }
    }

    // The rows of a message that has some.
    #[inline(always)]
    #[tactic(auto, unfolding(crate::specs::Inner::Writing::put_body))]
    fn body(&mut self, message: &Message)
        requires { fine self.old.lent.now.limit message.now self.old.lent.now.text.now self.old.lent.now.rows.now self.old.lent.now.nodes.now ≡ Ok tt }
        ensures { Writes (put_body self.old.lent.now.limit message.now self.old.lent.now.text.now self.old.lent.now.rows.now self.old.lent.now.nodes.now) self.old self.new }
    {
        match *message {
            Message::Startup { claims, .. } => self.counted::<Claim>(claims),
            Message::Ids { count } => self.counted::<Id>(count),
            Message::Types { count } => self.counted::<Predicate>(count),
            Message::Profile { steps } => self.counted::<Step>(steps),
            Message::Fetch { count, .. } => self.counted::<Pair>(count),
            Message::Ready { .. }
            | Message::Error { .. }
            | Message::Complete { .. }
            | Message::Control { .. }
            | Message::Reply(_)
            | Message::Page { .. }
            | Message::ListingDigest { .. }
            | Message::Opaque { .. } => {}
        }
    }
}

// The whole message from the start of `out` on.
#[tactic(auto, unfolding(crate::specs::Inner::Writing::put_message))]
pub(crate) fn write_message(message: &Message, lent: &Lent<'_>, out: &mut [u8])
    requires { fine lent.now.limit message.now lent.now.text.now lent.now.rows.now lent.now.nodes.now ≡ Ok tt }
    ensures { out.new ≡ (put_message lent.now.limit message.now lent.now.text.now lent.now.rows.now lent.now.nodes.now (record { out = out.old; place = 0 })).out }
{
    let mut writer = Writer { lent, out, at: 0 };
    writer.head(message);
    writer.body(message);
}
