// An answer is text: words with a space between them.
use crate::fault::Fault;
use std::alloc::Global;
use std::fmt;
use varint::Written;
use varint::error::{Code, Refusal};

pub type Answer = Result<String, Fault>;

// Bytes as a word: two digits for each, and `-` for no bytes.
#[derive(Clone, Copy)]
pub struct Hex<'a>(pub &'a [u8]);

// Numbers, each with a space before it.
#[derive(Clone, Copy)]
pub struct Numbers<'a>(pub &'a [u64]);

impl fmt::Display for Hex<'_> {
    fn fmt<W: fmt::Write>(&self, f: &mut fmt::Formatter<W>) -> fmt::Result {
        if self.0.is_empty() {
            return f.write_str("-");
        }
        for byte in self.0 {
            write!(f, "{byte:02x}")?;
        }
        Ok(())
    }
}

impl fmt::Display for Numbers<'_> {
    fn fmt<W: fmt::Write>(&self, f: &mut fmt::Formatter<W>) -> fmt::Result {
        for n in self.0 {
            write!(f, " {n}")?;
        }
        Ok(())
    }
}

// A word, and the numbers that go with it.
pub fn tell<const N: usize>(alloc: Global, word: &str, numbers: [u64; N]) -> Answer {
    Ok(format!(in alloc; "{word}{}", Numbers(&numbers))?)
}

pub fn tell_code(alloc: Global, word: &str, code: Code) -> Answer {
    tell(alloc, word, [code.number, code.a, code.b])
}

pub fn tell_refusal(alloc: Global, why: Refusal) -> Answer {
    tell_code(alloc, "refused", Code::from(why))
}

// What a call answers: a word and numbers of its own, or the refusal's.
pub fn tell_result<const N: usize>(
    alloc: Global,
    word: &str,
    answer: Result<[u64; N], Refusal>,
) -> Answer {
    match answer {
        Ok(numbers) => tell(alloc, word, numbers),
        Err(why) => tell_refusal(alloc, why),
    }
}

// What a writer answers, and its buffer.
pub fn tell_written(alloc: Global, written: Written, out: &[u8]) -> Answer {
    let told = tell_result(alloc, "wrote", written.map(|len| [len as u64]))?;
    Ok(format!(in alloc; "{told} out {}", Hex(out))?)
}
