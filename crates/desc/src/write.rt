// Writing descriptors: a node table and its texts back to bytes. Public functions take text and nodes apart: their callers hold them in structs of their own.
// Whoever writes within other bytes lends a buffer with a place beside it, and not the rest of the buffer: past the end nothing is stored, and the place
// goes on, which tells how long the whole would be.
ghost use Rattle.std.specs.Prelude.{Bool, ℕ, [], true, false, ◌&&◌, ◌||◌, ◌≡◌, ◌+◌, ◌-◌, ◌/◌, ◌≤◌, ◌<◌, leb, eqb, length, MatchOption};
ghost use Rattle.varint.specs.Choice.{pick};
ghost use Rattle.varint.specs.Gathering.{name_held};
ghost use Rattle.varint.specs.Inner.Again.{Again};
ghost use Rattle.desc.specs.Layout.{width, start_at, len_at, discriminant_at};
ghost use Rattle.desc.specs.Table.{cell, node_fits, kids_at, table};
ghost use Rattle.desc.specs.Emitting.{Pen, put_number, put_name, sized, verdict, names_from};
ghost use Rattle.desc.specs.Inner.Emission.{told, put_before, emission, kids_emission};
ghost use Rattle.desc.specs.Inner.Rows.{row_at};
ghost use Rattle.desc.specs.Encoding.{encode_desc};

use crate::head::{TAG_BYTES, TAG_FACT, TAG_RECORD, TAG_UNION};
use crate::inner::put_desc;
use crate::node::{read_cell, whole_row};
use crate::{MAX_DEPTH, MAX_PAYLOAD, node};
use varint::error::{Buffer, Fault, Refusal};
use varint::store::{copy_bytes, fill_from};
use varint::text::Span;
use varint::utf8::is_utf8;
use varint::{MAX_U32, Written, len_u64, put_u64};

// The node after the last one written, and the place after the last byte; `None` of it where the table is not laid out as one.
#[derive(Clone, Copy)]
pub struct Emitted {
    pub next: usize,
    pub place: usize,
}

// A root's parent. It is the number 0 and no `None`: where there is a parent, its tag is only compared with a constant, and no type with parts has tag 0. An
// Option would need a clause that the tag inside is not 0.
pub(crate) const NO_PARENT: u64 = 0;

// The greatest number in a column that has one of 32 bits where it is used, and else 0.
fn greatest(used: bool) -> u64
    ensures { result ≡ pick used 0xFFFFFFFF 0 }
{
    if used { MAX_U32 } else { 0 }
}

// Has a type with this tag parts? Then its end is told by them.
fn is_branch(tag: u64) -> bool
    ensures { result ≡ (eqb tag 3 || eqb tag 4) }
{
    matches!(tag, TAG_RECORD | TAG_UNION)
}

// The numbers of node `n`, if it is there and laid out as a node may be below a parent with this tag. A root's name is 0, 0; a child's is no matter of the
// layout. Only an alternative of a union has a discriminant, and only a fact a predicate. A type without parts has no children, and ends behind itself.
#[inline(always)]
fn fitting_row(nodes: &[u64], n: usize, parent: u64) -> Option<&[u64; node::WIDTH]>
    ensures { MatchOption result (node_fits nodes.now n parent ≡ false) (λ row. (node_fits nodes.now n parent ≡ true) × (row.now ≡ row_at nodes.now n)) }
{
    let row = node::row(nodes, n)?;
    let tag = row[node::TAG];
    let nameless = (row[node::START] == 0) & (row[node::LEN] == 0);
    let childless = (row[node::COUNT] == 0) & (row[node::END] == (n + 1) as u64);
    let fits = (tag <= TAG_BYTES)
        & ((parent != NO_PARENT) | nameless)
        & (row[node::DISCRIMINANT] <= greatest(parent == TAG_UNION))
        & (row[node::PREDICATE] <= greatest(tag == TAG_FACT))
        & (is_branch(tag) | childless);
    fits.then_some(row)
}

// Stores the varint of `v` from place `at` on, as far as `out` goes, and returns the place after it.
#[tactic(auto, unfolding(crate::specs::Emitting::put_number, crate::specs::Emitting::put_bytes))]
pub fn put_number(out: &mut [u8], at: usize, v: u64) -> usize
    ensures { record { out = out.new; place = result } ≡ put_number v (record { out = out.old; place = at }) }
{
    at.saturating_add(put_u64(out, at, v))
}

// Stores the bytes of a name in the text, as far as they are there, and moves on by its length.
#[tactic(auto, unfolding(crate::specs::Emitting::put_name))]
pub fn put_name(text: &[u8], name: Span, out: &mut [u8], at: usize) -> usize
    ensures { record { out = out.new; place = result } ≡ put_name text.now (name.start, name.len) (record { out = out.old; place = at }) }
{
    copy_bytes(text, name.start, name.len, out, at);
    at.saturating_add(name.len)
}

// What is made of a node table: where the bytes go, and whether a node is tested before. Each step is inlined.
pub(crate) trait Sink: Drop {
    // Is the table tested on the way? A sink that does not relies on a test before it.
    ghost tests: { Bool };

    // What is stored, and the place of the next byte.
    ghost pen: { Self → Pen };

    // Which buffer it was lent: it stays the same.
    ghost lent: { Self → ℕ };

    // The numbers of node `n`, if it is there and laid out as a node may be below a parent with this tag.
    fn row(nodes: &[u64], n: usize, parent: u64) -> Option<&[u64; node::WIDTH]>
        requires { Self.tests ≡ false → node_fits nodes.now n parent ≡ true }
        ensures { MatchOption result (node_fits nodes.now n parent ≡ false) (λ row. (node_fits nodes.now n parent ≡ true) × (row.now ≡ row_at nodes.now n)) };

    // A number, as a varint.
    fn number(&mut self, v: u64)
        ensures kept { lent self.new ≡ lent self.old }
        ensures written { pen self.new ≡ put_number v (pen self.old) };

    // The bytes of a name in the text.
    fn name(&mut self, text: &[u8], name: Span)
        ensures kept { lent self.new ≡ lent self.old }
        ensures written { pen self.new ≡ put_name text.now (name.start, name.len) (pen self.old) };
}

// A buffer, and the place in it where the next byte goes.
#[derive(Drop)]
pub(crate) struct Writer<'a> {
    pub(crate) out: &'a mut [u8],
    pub(crate) at: usize,
}

impl Sink for Writer<'_> {
    ghost tests = { false };

    ghost pen = { λ w. record { out = w.out.now; place = w.at } };

    ghost lent = { λ w. w.out.ghost_name };

    // What the trait asks and promises stands here once more, with its `tests`: the prover does not put it in by itself.
    #[inline(always)]
    fn row(nodes: &[u64], n: usize, parent: u64) -> Option<&[u64; node::WIDTH]>
        requires { false ≡ false → node_fits nodes.now n parent ≡ true }
        ensures { MatchOption result (node_fits nodes.now n parent ≡ false) (λ row. (node_fits nodes.now n parent ≡ true) × (row.now ≡ row_at nodes.now n)) }
    {
        Some(whole_row(nodes, n))
    }

    // A tag, a count, a predicate or a name's length mostly has one byte: that takes no call.
    #[inline(always)]
    #[tactic(auto, using(crate::proofs::EmitPens::one_byte))]
    fn number(&mut self, v: u64) {
        if v < 0x80 && self.at < self.out.len() {
            self.out[self.at] = v as u8;
            self.at += 1;
            return;
        }
        self.at = put_number(self.out, self.at, v);
    }

    #[inline(always)]
    fn name(&mut self, text: &[u8], name: Span) {
        self.at = put_name(text, name, self.out, self.at);
    }
}

// How many bytes there would be: nothing is stored.
#[derive(Drop)]
struct Gauge {
    size: usize,
}

impl Sink for Gauge {
    ghost tests = { true };

    ghost pen = { λ g. record { out = []; place = g.size } };

    ghost lent = { λ _. 0 };

    #[inline(always)]
    fn row(nodes: &[u64], n: usize, parent: u64) -> Option<&[u64; node::WIDTH]> {
        fitting_row(nodes, n, parent)
    }

    #[inline(always)]
    #[tactic(auto, using(crate::proofs::GaugeLaws::number_gauged))]
    fn number(&mut self, v: u64) {
        self.size = self.size.saturating_add(len_u64(v));
    }

    #[inline(always)]
    #[tactic(auto, using(crate::proofs::GaugeLaws::name_gauged))]
    fn name(&mut self, _text: &[u8], name: Span) {
        self.size = self.size.saturating_add(name.len);
    }
}

// A node table and the text that its names are in.
#[derive(Clone, Copy)]
pub(crate) struct Table<'a> {
    pub(crate) text: &'a [u8],
    pub(crate) nodes: &'a [u64],
}

impl Table<'_> {
    // What stands before a node below a parent with this tag; before a root nothing does.
    #[inline(always)]
    #[tactic(auto, using(crate::proofs::EmitPens::before_root, crate::proofs::EmitPens::label_steps, crate::proofs::EmitPens::where_yes, crate::proofs::EmitPens::where_no))]
    fn label<S: Sink>(&self, row: &[u64; node::WIDTH], parent: u64, sink: &mut S)
        ensures kept { S.lent sink.new ≡ S.lent sink.old }
        ensures written { S.pen sink.new ≡ put_before self.now.text.now parent row.now (S.pen sink.old) }
    {
        if parent == NO_PARENT {
            return;
        }
        let len = row[node::LEN];
        let name = Span::of(row[node::START], len);
        sink.number(len);
        sink.name(self.text, name);
        if parent == TAG_UNION {
            sink.number(row[node::DISCRIMINANT]);
        }
    }

    // Writes what stands before node `n`, which is below a parent with this tag, the node and all below it, where `depth` more levels may nest, and returns
    // the node after the last one written. It is inlined in the loop over children, so that only a type with parts takes a call.
    #[cycle(emit)]
    #[inline(always)]
    pub(crate) fn emit<S: Sink>(
        &self,
        n: usize,
        parent: u64,
        depth: u64,
        sink: &mut S,
    ) -> Option<usize>
        requires { Again S.tests (table depth self.now.nodes.now n parent) }
        ensures kept { S.lent sink.new ≡ S.lent sink.old }
        ensures written { told result (S.pen sink.new) ≡ emission self.now.text.now (table depth self.now.nodes.now n parent) (put_before self.now.text.now parent (row_at self.now.nodes.now n) (S.pen sink.old)) }
    {
        if depth == 0 {
            return None;
        }
        let row = S::row(self.nodes, n, parent)?;
        self.label(row, parent, sink);
        let tag = row[node::TAG];
        sink.number(tag);
        if !is_branch(tag) {
            if tag == TAG_FACT {
                sink.number(row[node::PREDICATE]);
            }
            return Some(n + 1);
        }
        let count = row[node::COUNT];
        sink.number(count);
        let next = self.emit_kids(tag, count, n + 1, depth - 1, sink)?;
        (row[node::END] == next as u64).then_some(next)
    }

    // Writes so many children of a type with this tag, the first of which is node `n`, and returns the node after the last one written.
    #[cycle(emit)]
    fn emit_kids<S: Sink>(
        &self,
        tag: u64,
        count: u64,
        n: usize,
        depth: u64,
        sink: &mut S,
    ) -> Option<usize>
        requires part { tag ≡ 0 → ⊥ }
        requires laid { Again S.tests (kids_at (table depth self.now.nodes.now) self.now.nodes.now tag count n) }
        ensures kept { S.lent sink.new ≡ S.lent sink.old }
        ensures written { told result (S.pen sink.new) ≡ kids_emission self.now.text.now tag (kids_at (table depth self.now.nodes.now) self.now.nodes.now tag count n) (S.pen sink.old) }
    {
        let mut next = n;
        for _ in 0..count {
            next = self.emit(next, tag, depth, sink)?;
        }
        Some(next)
    }
}

// The node after the tree whose root is node `n`, and how many bytes it takes by the lengths in the table; a size over 2^64−1 is told as
// 2^64−1.
#[tactic(auto, using(varint::proofs::Agains::checks))]
pub fn size_desc(nodes: &[u64], n: usize, limit: u64) -> Option<Emitted>
    ensures { result ≡ sized (table limit nodes.now n 0) }
{
    let mut gauge = Gauge { size: 0 };
    let next = Table { text: &[], nodes }.emit(n, NO_PARENT, limit, &mut gauge)?;
    let place = gauge.size;
    Some(Emitted { next, place })
}

// Is the name in the text, and is it UTF-8?
pub fn check_name(text: &[u8], name: Span) -> Result<(), Refusal>
    ensures { result ≡ verdict (name_held text.now name.start name.len) }
{
    if name.is_past(text) {
        return Err(Refusal::BadMessage(Fault::Texts));
    }
    if !is_utf8(text, name.start, name.len) {
        return Err(Refusal::BadString);
    }
    Ok(())
}

// Where the name of node `m` stands; a number that the table lacks counts as 0.
fn read_span(nodes: &[u64], m: usize) -> Span
    ensures { (result.start ≡ cell nodes.now m start_at) × (result.len ≡ cell nodes.now m len_at) }
{
    Span::of(
        read_cell(nodes, m, node::START),
        read_cell(nodes, m, node::LEN),
    )
}

// The names of the nodes from `from` to before `end`: nodes stand in reading order, and so do their names.
pub fn check_names(text: &[u8], nodes: &[u64], from: usize, end: usize) -> Result<(), Refusal>
    ensures { result ≡ names_from text.now nodes.now from (end - from) }
{
    for m in from..end {
        check_name(text, read_span(nodes, m))?;
    }
    Ok(())
}

// Writes the descriptor that a node table and its texts make, and zeros after it; or a refusal, and nothing is written.
pub fn encode_desc(text: &[u8], nodes: &[u64], out: &mut [u8]) -> Written
    ensures { record { answer = result; out = out.new } ≡ encode_desc 67108864 64 text.now nodes.now out.old }
{
    let Some(Emitted { next, place }) = size_desc(nodes, 0, MAX_DEPTH) else {
        return Err(Refusal::BadMessage(Fault::Layout));
    };
    check_names(text, nodes, 1, next)?;
    // A length of 2^64−1 may stand for a greater one, and is over the maximum.
    if MAX_PAYLOAD < place as u64 {
        return Err(Refusal::too_large(place as u64, MAX_PAYLOAD));
    }
    if out.len() < place {
        return Err(Refusal::too_small(Buffer::Out, place));
    }
    put_desc(text, nodes, 0, MAX_DEPTH, out, 0);
    fill_from(out, place, 0);
    Ok(place)
}
