// UTF-8, as RFC 3629 has it. A text is asked for by its place and length, since it may lie past the end: of a slice of it each caller would owe that it does not.
// No loop over places is a `for`: each step tells how far it came.
ghost use Rattle.std.specs.Prelude.{true, ◌≡◌, ◌≤◌, ◌<◌, ◌+◌, length, drop, get_or};
ghost use Rattle.varint.specs.Utf8.{utf8, utf8_at, within, tail};
ghost use Rattle.varint.specs.Inner.Utf8Steps.{second, Ascii, Passed, Char};

// Characters that are not ASCII and stand closer than so many bytes are tested together.
const NEAR: usize = 64;

// So few bytes are tested one character after the other: to test them together costs as much.
const FEW: usize = 32;

// So many bytes are tested together, at least and at most.
const SHORT_PART: usize = 1024;

const LONG_PART: usize = 8192;

// Are there `len` bytes from place `from` on, and are they UTF-8?
pub fn is_utf8(s: &[u8], from: usize, len: usize) -> bool
    ensures { result ≡ utf8_at s.now from len }
{
    if s.len() < from {
        return false;
    }
    if s.len() - from < len {
        return false;
    }
    is_text(&s[from..from + len])
}

// Are these bytes UTF-8? Most texts are short and ASCII, which is told at once.
fn is_text(s: &[u8]) -> bool
    ensures { result ≡ utf8 s.now }
{
    let len = s.len();
    if 8 <= len && len <= 64 && is_short_ascii(s, 0) {
        return true;
    }
    is_mixed(s)
}

// Are these bytes UTF-8? Runs of ASCII are passed by blocks, and a character that stands alone between them by its bytes. From the first two
// on that stand close, the text is tested by parts.
fn is_mixed(s: &[u8]) -> bool
    ensures { result ≡ utf8 s.now }
{
    let enough = s.len().saturating_sub(FEW); // from a place behind this one on there are few bytes
    let mut at = skip_blocks(s, 0);
    let mut near = 0; // where the last character that is not ASCII stops being close
    while at < s.len() {
        if s[at] < 128 {
            at = skip_ascii(s, at);
        } else {
            if at < near {
                return is_dense(s, at);
            }
            let w = char_width(s, at);
            if w == 0 {
                return false;
            }
            at += w;
            near = enough.min(at + NEAR);
        }
    }
    true
}

// Are the bytes from place `from` to the end UTF-8? They are tested many at a time, part by part: `simdutf8` reads all that it is lent, and says no more, so that where
// a part is not UTF-8 std, which ends at a fault, says whether the rest is. A call, since it takes so many registers that the loop around it would be slow for the
// short texts that never come here.
#[inline(never)]
fn is_dense(s: &[u8], from: usize) -> bool
    requires { from ≤ length s.now }
    ensures { result ≡ utf8 (drop from s.now) }
{
    let mut at = from;
    while at < s.len() {
        let end = part_end(s, at);
        if !simdutf8::is_utf8(&s[at..end]) {
            return std::str::from_utf8(&s[at..]).is_ok();
        }
        at = end;
    }
    true
}

// Where the part ends that begins at place `from`: a character begins there, if one does within four bytes. It is about as long as what stands before it, so that not
// much more is read than up to a fault.
fn part_end(s: &[u8], from: usize) -> usize
    requires { from < length s.now }
    ensures { (from < result) × (result ≤ length s.now) }
{
    let size = from.clamp(SHORT_PART, LONG_PART);
    if s.len() - from <= size {
        return s.len();
    }
    back(s, back(s, back(s, from + size)))
}

// One place back where no character begins at this one.
fn back(s: &[u8], at: usize) -> usize
    requires { (0 < at) × (at < length s.now) }
    ensures { (result ≤ at) × (at ≤ result + 1) }
{
    let inside = is_tail(s[at]);
    if inside { at - 1 } else { at }
}

// The end of the run of ASCII that starts at place `from`. Blocks of 16 bytes come first, since a run in a text that is not all ASCII is short; after one that is
// ASCII, longer blocks are worth a try. A block of 16 is compared with 127 and not with 128, which is compiled to fewer instructions; the byte 127 itself, rare in
// a text, is left to what follows. Where the text ends, a block of 8 comes before the loop over bytes; inside of a text that is not all ASCII it would cost more
// than it saves.
fn skip_ascii(s: &[u8], from: usize) -> usize
    requires { (from < length s.now) × (get_or s.now from 0 < 128) }
    ensures { Passed s.now from result × (from < result) }
{
    let mut p = from;
    while 16 <= s.len() - p {
        if !all_below::<16>(127, s, p) {
            break;
        }
        p = skip_blocks(s, p + 16);
    }
    let left = s.len() - p;
    if left < 16 {
        if 8 <= left {
            if all_below::<8>(128, s, p) {
                p += 8;
            }
        }
    }
    while p < s.len() {
        if 128 <= s[p] {
            return p;
        }
        p += 1;
    }
    p
}

// Are the bytes from place `p` to the end, 8 to 64 of them, ASCII? Blocks that may lie over one another cover them, with few branches on how many there are.
fn is_short_ascii(s: &[u8], p: usize) -> bool
    requires { (p + 8 ≤ length s.now) × (length s.now ≤ p + 64) }
    ensures { result ≡ true → Ascii s.now p (length s.now) }
{
    let end = s.len();
    if end - p < 16 {
        return all_below::<8>(128, s, p) & all_below::<8>(128, s, end - 8);
    }
    let last = end - 16;
    let second = last.min(p + 16);
    let third = last.min(p + 32);
    all_below::<16>(128, s, p)
        & all_below::<16>(128, s, second)
        & all_below::<16>(128, s, third)
        & all_below::<16>(128, s, last)
}

// The place after the blocks of 64 bytes from `from` on that are all ASCII; after one that is, blocks of 256 are worth a try.
fn skip_blocks(s: &[u8], from: usize) -> usize
    requires { from ≤ length s.now }
    ensures { Passed s.now from result }
{
    let mut p = from;
    while 64 <= s.len() - p {
        if !all_below::<64>(128, s, p) {
            return p;
        }
        p = skip_long(s, p + 64);
    }
    p
}

// The place after the blocks of 256 bytes from `from` on that are all ASCII.
fn skip_long(s: &[u8], from: usize) -> usize
    requires { from ≤ length s.now }
    ensures { Passed s.now from result }
{
    let mut p = from;
    while 256 <= s.len() - p {
        if !all_below::<256>(128, s, p) {
            return p;
        }
        p += 256;
    }
    p
}

// Are the N bytes from place `from` on below `top`, and so ASCII? There is no branch on a byte, so that many are tested at a time.
fn all_below<const N: usize>(top: u8, s: &[u8], from: usize) -> bool
    requires { (top ≤ 128) × (from + N ≤ length s.now) }
    ensures { result ≡ true → Ascii s.now from (from + N) }
{
    let mut below = true;
    for i in 0..N {
        below = below & (s[from + i] < top);
    }
    below
}

// How many bytes the character at place `p` has, which is not ASCII; 0 where there is none.
fn char_width(s: &[u8], p: usize) -> usize
    requires { (p < length s.now) × (128 ≤ get_or s.now p 0) }
    ensures { Char s.now p result }
{
    let a = s[p];
    let left = s.len() - p;
    if a < 0xE0 {
        if a < 0xC2 {
            return 0;
        }
        if left < 2 {
            return 0;
        }
        if is_tail(s[p + 1]) {
            return 2;
        }
        return 0;
    }
    if a < 0xF0 {
        if left < 3 {
            return 0;
        }
        if is_second(a, s[p + 1]) & is_tail(s[p + 2]) {
            return 3;
        }
        return 0;
    }
    if 0xF4 < a {
        return 0;
    }
    if left < 4 {
        return 0;
    }
    if is_second(a, s[p + 1]) & is_tail(s[p + 2]) & is_tail(s[p + 3]) {
        return 4;
    }
    0
}

// Is `b` a second byte after the first byte `a` of a character of three or four?
fn is_second(a: u8, b: u8) -> bool
    ensures { result ≡ within (second a) b }
{
    if a == 0xE0 {
        return in_range(0xA0, 0xBF, b);
    }
    if a == 0xED {
        return in_range(0x80, 0x9F, b);
    }
    if a == 0xF0 {
        return in_range(0x90, 0xBF, b);
    }
    if a == 0xF4 {
        return in_range(0x80, 0x8F, b);
    }
    is_tail(b)
}

fn is_tail(b: u8) -> bool
    ensures { result ≡ within tail b }
{
    in_range(0x80, 0xBF, b)
}

fn in_range(lo: u8, hi: u8, b: u8) -> bool
    ensures { result ≡ within (lo, hi) b }
{
    (lo <= b) & (b <= hi)
}
