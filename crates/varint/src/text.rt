// Texts and names: a length and that many bytes of UTF-8 (`get_str` of protocol.rs, `take_name` of desc.rs). The lengths are read inline, as numbers are.
// The place stands beside the slice, since it may lie past the end, as in lib.rt; and it is the answer's too.
ghost use Rattle.std.specs.Prelude.{◌≡◌, ◌+◌, ◌≤◌, ltb, length};
ghost use Rattle.varint.specs.Texts.{skim_on, skim_text, get_text, get_name};

use crate::Got;
use crate::error::Refusal;
use crate::utf8::is_utf8;

// A text lies in the bytes that were read: `len` of them from `start` on.
#[derive(Clone, Copy)]
pub struct Span {
    pub start: usize,
    pub len: usize,
}

impl Span {
    // The span of two numbers, as rows, nodes and C have them. It may lie anywhere.
    pub fn of(start: u64, len: u64) -> Span
        ensures { result ≡ record { start = start; len = len } }
    {
        Span {
            start: start as usize,
            len: len as usize,
        }
    }

    // Does it run past the end of this text?
    pub fn is_past(self, text: &[u8]) -> bool
        ensures { result ≡ ltb (length text.now) (self.start + self.len) }
    {
        text.len() < self.start || text.len() - self.start < self.len
    }
}

// The text whose length `n` was read and whose bytes start at `start`.
#[inline(always)]
fn span_of(s: &[u8], n: u64, start: usize) -> Got<Span>
    requires { start ≤ length s.now }
    ensures { result ≡ skim_on s.now (Ok (n, start)) }
{
    let available = (s.len() - start) as u64;
    if available < n {
        return Err(Refusal::LengthOutOfRange {
            declared: n,
            available,
        });
    }
    let len = n as usize;
    Ok((Span { start, len }, start + len))
}

// Where the text at place `at` of `s` lies. Its bytes are not looked at: `get_str` does that, and `inner` relies on it.
#[inline(always)]
#[tactic(auto, unfolding(crate::specs::Texts::skim_text))]
pub(crate) fn skim_str(s: &[u8], at: usize) -> Got<Span>
    ensures { result ≡ skim_text s.now at }
{
    let (n, start) = crate::get_u64(s, at)?;
    span_of(s, n, start)
}

// The text at place `at` of `s`.
pub fn get_str(s: &[u8], at: usize) -> Got<Span>
    ensures { result ≡ get_text s.now at }
{
    let (text, next) = skim_str(s, at)?;
    if is_utf8(s, text.start, text.len) {
        return Ok((text, next));
    }
    Err(Refusal::BadString)
}

// The name at place `at` of `s`: a text, with no rule of its own.
#[tactic(auto, unfolding(crate::specs::Texts::get_name))]
pub fn take_name(s: &[u8], at: usize) -> Got<Span>
    ensures { result ≡ get_name s.now at }
{
    get_str(s, at)
}
