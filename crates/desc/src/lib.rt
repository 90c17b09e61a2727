// Type descriptors (desc.rs) and the node table that they are laid out as in lent memory.
//
// A descriptor is read twice: once to see whether it is one and how much memory it takes, and once to store it. The first reading checks
// its names, the second only finds them. Both are one function, which is lent two empty buffers the first time.
//
// Bytes, text and nodes have a place beside them, and are not lent from that place on: the place is the answer's too, and one in text or nodes goes on past
// the end, where nothing is stored; of `&s[at..]` each caller would owe that the place is inside. Public functions are lent text, rows and nodes one by one, as C
// lends them and as messages have them.
#![tactic(auto)]

mod head;
pub mod inner;
pub mod node;
pub mod write;

ghost use Rattle.std.specs.Prelude.{◌≡◌, ◌+◌, ◌≤◌, length};
ghost use Rattle.varint.specs.Inner.Again.{Again};
ghost use Rattle.desc.specs.Decoding.{decode_desc};
ghost use Rattle.desc.specs.Reading.{label_at, children, desc};
ghost use Rattle.desc.specs.Inner.Walking.{Keeps, Labels, reached, outcome, outcome_kids, Agrees};

use head::{Head, Label, read_head, read_label};
use inner::read_desc;
use node::{WIDTH, store_node};
use varint::Got;
use varint::error::{Buffer, Refusal};
use varint::store::{copy_bytes, fill_from};
use varint::text::Span;

// How deep descriptors nest, and the longest payload (block.rs).
pub const MAX_DEPTH: u64 = 64;

pub const MAX_PAYLOAD: u64 = 67_108_864;

// The places past a descriptor: in the bytes, the text and the nodes.
#[derive(Clone, Copy)]
pub struct Walked {
    pub next: usize,
    pub text: usize,
    pub nodes: usize,
}

// What stands before a root: nothing.
const ROOT: Label = Label {
    name: Span { start: 0, len: 0 },
    discriminant: 0,
};

// The bytes that a descriptor is read from, how many levels it may have, and whether its names are checked or only found.
#[derive(Clone, Copy)]
struct Source<'a> {
    s: &'a [u8],
    limit: u64,
    check: bool,
}

// Lent memory, and how far it is filled: the place of the next byte of text, and the number of the next node.
#[derive(Drop)]
struct Memory<'a> {
    text: &'a mut [u8],
    t: usize,
    nodes: &'a mut [u64],
    n: usize,
}

impl Memory<'_> {
    // What stands before a child of a type with this tag: its name is stored, and its label is that of the table.
    #[inline(always)]
    fn label(&mut self, source: &Source<'_>, tag: u64, at: usize) -> Got<Label>
        requires again { Again source.now.check (label_at source.now.s.now tag at) }
        requires before { self.old.t ≤ at }
        ensures kept { Keeps self.old self.new }
        ensures read { Labels source.now.s.now (label_at source.now.s.now tag at) self.old self.new result }
    {
        let (found, next) = read_label(source.s, tag, at, source.check)?;
        let len = found.name.len;
        copy_bytes(source.s, found.name.start, len, self.text, self.t);
        let name = Span { start: self.t, len };
        self.t += len;
        let discriminant = found.discriminant;
        Ok((Label { name, discriminant }, next))
    }

    // Reads the descriptor at place `at`, where `depth` more levels may nest, as the next node with this label, and returns the place past it. It is inlined in
    // the loop over children, so that only a type with parts takes a call.
    #[cycle(walk)]
    #[inline(always)]
    fn walk(
        &mut self,
        source: &Source<'_>,
        at: usize,
        depth: u64,
        label: Label,
    ) -> Result<usize, Refusal>
        requires before { self.old.t + self.old.n ≤ at }
        requires again { Again source.now.check (desc source.now.limit depth source.now.s.now at) }
        ensures kept { Keeps self.old self.new }
        ensures read { Agrees (outcome (desc source.now.limit depth source.now.s.now at) self.old.text.now self.old.t self.old.nodes.now self.old.n (label.name.start, label.name.len) label.discriminant) (length source.now.s.now) (reached result self.new) self.new.text.now self.new.nodes.now }
    {
        let too_deep = depth == 0;
        if too_deep {
            return Err(Refusal::TooDeep(source.limit));
        }
        let (head, next) = read_head(source.s, at)?;
        let n = self.n;
        self.n = n + 1;
        match head {
            Head::Leaf { tag, predicate } => {
                store_node(self.nodes, n, tag, label, predicate, 0, n + 1);
                Ok(next)
            }
            Head::Branch { tag, count } => {
                let past = self.walk_kids(source, tag, count, next, depth - 1)?;
                store_node(self.nodes, n, tag, label, 0, count, self.n);
                Ok(past)
            }
        }
    }

    // Reads so many children of a type with this tag, the first of which stands at place `at`, and returns the place past them.
    #[cycle(walk)]
    fn walk_kids(
        &mut self,
        source: &Source<'_>,
        tag: u64,
        count: u64,
        at: usize,
        depth: u64,
    ) -> Result<usize, Refusal>
        requires before { self.old.t + self.old.n ≤ at }
        requires inside { at ≤ length source.now.s.now }
        requires again { Again source.now.check (children (desc source.now.limit depth source.now.s.now) source.now.s.now tag count at) }
        ensures kept { Keeps self.old self.new }
        ensures read { Agrees (outcome_kids (children (desc source.now.limit depth source.now.s.now) source.now.s.now tag count at) self.old.text.now self.old.t self.old.nodes.now self.old.n) (length source.now.s.now) (reached result self.new) self.new.text.now self.new.nodes.now }
    {
        let mut past = at;
        for _ in 0..count {
            let (child, body) = self.label(source, tag, past)?;
            past = self.walk(source, body, depth, child)?;
        }
        Ok(past)
    }

    // Reads the descriptor at place `at` as a root, with all levels left, and tells the places past it.
    fn root(&mut self, source: &Source<'_>, at: usize) -> Result<Walked, Refusal>
        requires before { self.old.t + self.old.n ≤ at }
        requires again { Again source.now.check (desc source.now.limit source.now.limit source.now.s.now at) }
        ensures kept { Keeps self.old self.new }
        ensures read { Agrees (outcome (desc source.now.limit source.now.limit source.now.s.now at) self.old.text.now self.old.t self.old.nodes.now self.old.n (0, 0) 0) (length source.now.s.now) result self.new.text.now self.new.nodes.now }
    {
        let next = self.walk(source, at, source.limit, ROOT)?;
        Ok(Walked {
            next,
            text: self.t,
            nodes: self.n,
        })
    }
}

// The descriptor at the start of a payload: its texts in text, its nodes in nodes, and zeros behind them; rows are cleared too.
pub fn decode_desc(
    payload: &[u8],
    text: &mut [u8],
    rows: &mut [u64],
    nodes: &mut [u64],
) -> Result<usize, Refusal>
    ensures { record { answer = result; text = text.new; rows = rows.new; nodes = nodes.new } ≡ decode_desc 67108864 64 payload.now text.old rows.old nodes.old }
{
    let length = payload.len() as u64;
    if MAX_PAYLOAD < length {
        return Err(Refusal::too_large(length, MAX_PAYLOAD));
    }
    let measured = read_desc(payload, 0, MAX_DEPTH, true, &mut [], 0, &mut [], 0)?;
    if text.len() < measured.text {
        return Err(Refusal::too_small(Buffer::Text, measured.text));
    }
    let numbers = measured.nodes * WIDTH;
    if nodes.len() < numbers {
        return Err(Refusal::too_small(Buffer::Nodes, numbers));
    }
    let _ = read_desc(payload, 0, MAX_DEPTH, false, text, 0, nodes, 0);
    fill_from(text, measured.text, 0);
    fill_from(rows, 0, 0);
    fill_from(nodes, numbers, 0);
    Ok(measured.next)
}
