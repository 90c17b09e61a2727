// The memory that a message is read into. What reads takes a slice with a place beside it, as the readers of fields do (fields.rt).
#![tactic(auto, unfolding(crate::specs::Inner::Loading::load, crate::specs::Inner::Loading::told, crate::specs::Inner::Loading::Ahead))]

ghost use Rattle.std.specs.Prelude.{◌≡◌, [], ◌∷◌, ◌<◌, ◌+◌, ◌≤◌, length};
ghost use Rattle.varint.specs.Stores.{part};
ghost use Rattle.varint.specs.Formats.{got_text, name, text};
ghost use Rattle.varint.specs.Inner.Again.{Again};
ghost use Rattle.desc.specs.WellFormed.{descriptor};
ghost use Rattle.protocol.specs.Laying.{span_of};
ghost use Rattle.protocol.specs.Pieces.{cells, words, tree};
ghost use Rattle.protocol.specs.Inner.Loading.{mem, Ahead, Becomes, put, lies, past, Loads, Fits};

use desc::inner::read_desc;
use varint::Got;
use varint::error::Refusal;
use varint::inner::{find_name, find_str};
use varint::store::{copy_bytes, store};
use varint::text::{Span, get_str, take_name};

// The lent memory, and where the next byte of text, number of rows and node go. `check` says that this is the reading that checks: it stores nothing, and
// its places move on all the same, since they tell how much a message takes. It is a flag: with a type or a const parameter for each reading every reader would be
// made twice. Descriptors may nest `limit` deep. All is inlined, so that the places stay in registers where rows are looped over. What moves a place on asks that so much of the bytes is passed that none overflows (`Fits`,
// `RowFits`): a struct of bytes, place and memory that says so would be made and taken apart around each field.
#[derive(Drop)]
pub(crate) struct Memory<'a> {
    pub check: bool,
    pub limit: u64,
    pub text: &'a mut [u8],
    pub t: usize,
    pub rows: &'a mut [u64],
    pub r: usize,
    pub nodes: &'a mut [u64],
    pub n: usize,
}

impl Memory<'_> {
    // A row of one number.
    #[inline(always)]
    pub(crate) fn store_one(&mut self, a: u64)
        requires { self.old.r + 1 < 18446744073709551616 }
        ensures { Becomes (put (cells (λ t n. a ∷ []))) self.old self.new }
    {
        if !self.check {
            store(self.rows, self.r, a);
        }
        self.r += 1;
    }

    // Three numbers. A function of any number of them would need a loop where three lines stand.
    #[inline(always)]
    pub(crate) fn store_three(&mut self, a: u64, b: u64, c: u64)
        requires { self.old.r + 3 < 18446744073709551616 }
        ensures { Becomes (put (cells (λ t n. a ∷ b ∷ c ∷ []))) self.old self.new }
    {
        if !self.check {
            store(self.rows, self.r, a);
            store(self.rows, self.r + 1, b);
            store(self.rows, self.r + 2, c);
        }
        self.r += 3;
    }

    // The bytes of `s` where `found` lies. The answer is where they lie in text.
    #[inline(always)]
    #[tactic(auto, using(varint::proofs::StoreLaws::length_part))]
    pub(crate) fn store_text(&mut self, s: &[u8], found: Span) -> Span
        requires room { self.old.t + found.len < 18446744073709551616 }
        requires inside { found.start + found.len ≤ length s.now }
        ensures { (result ≡ span_of self.old.t (part s.now found.start found.len)) × Becomes (put (words (part s.now found.start found.len))) self.old self.new }
    {
        let start = self.t;
        if !self.check {
            copy_bytes(s, found.start, found.len, self.text, start);
        }
        self.t += found.len;
        Span {
            start,
            len: found.len,
        }
    }

    // What was found in `s`, unless it was refused. It is handed over as it was answered (point 94 of docs/DECISIONS.md).
    #[inline(always)]
    fn keep(&mut self, s: &[u8], found: Got<Span>) -> Got<Span>
        requires { Ahead self.old.t s.now found }
        ensures { Loads lies words (got_text s.now found) self.old self.new result }
    {
        let (span, next) = found?;
        Ok((self.store_text(s, span), next))
    }

    // The name at place `at` of `s`: it is checked, or it is stored.
    #[inline(always)]
    pub(crate) fn name(&mut self, s: &[u8], at: usize) -> Got<Span>
        requires before { self.old.t ≤ at }
        requires again { Again self.old.check (name.read s.now at) }
        ensures { Loads lies words (name.read s.now at) self.old self.new result }
    {
        let found = if self.check {
            take_name(s, at)
        } else {
            find_name(s, at)
        };
        self.keep(s, found)
    }

    // The same of a free text.
    #[inline(always)]
    pub(crate) fn text(&mut self, s: &[u8], at: usize) -> Got<Span>
        requires before { self.old.t ≤ at }
        requires again { Again self.old.check (text.read s.now at) }
        ensures { Loads lies words (text.read s.now at) self.old self.new result }
    {
        let found = if self.check {
            get_str(s, at)
        } else {
            find_str(s, at)
        };
        self.keep(s, found)
    }

    // The place past a descriptor: it is checked, or it is stored.
    #[inline(always)]
    pub(crate) fn desc(&mut self, s: &[u8], at: usize) -> Result<usize, Refusal>
        requires before { Fits s.now at (mem self.old) }
        requires again { Again self.old.check ((descriptor self.old.limit).read s.now at) }
        ensures { Loads past tree ((descriptor self.old.limit).read s.now at) self.old self.new result }
    {
        let walked = read_desc(
            s, at, self.limit, self.check, self.text, self.t, self.nodes, self.n,
        )?;
        self.t = walked.text;
        self.n = walked.nodes;
        Ok(walked.next)
    }
}
