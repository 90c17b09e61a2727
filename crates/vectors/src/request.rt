// A request: the name of an operation, and for each argument a space and the argument's word.
use crate::fault::Fault;
use hex::FromHexError;
use std::alloc::{AllocError, Global};
use std::str::{FromStr, Split};

// A call is lent so many bytes at most.
const MAX_BYTES: usize = 16384;

// And so many numbers, which are more than the 4,096 ids that a fetch may have.
const MAX_NUMBERS: usize = 4100;

// An offer is lent so many bytes of text at most.
const MAX_TEXT: usize = 4096;

// A number to lend: each of its bytes is A5.
const DIRTY: u64 = 0xa5a5_a5a5_a5a5_a5a5;

#[derive(Drop)]
pub struct Request<'a> {
    pub alloc: Global,
    pub name: &'a str,
    words: Split<'a, char>,
}

// Digits, of a number below 0 with a `-` before them; no `+`, and 0 has no sign.
fn parse<T: FromStr>(word: &str) -> Result<T, Fault>
where
    T::Err: Drop,
{
    let is_minus_zero = word.starts_with('-') && word.chars().skip(1).all(|c| c == '0');
    if word.starts_with('+') || is_minus_zero {
        return Err(Fault::Malformed);
    }
    word.parse().map_err(|_| Fault::Malformed)
}

// The number in the bits of a field; one that is too great becomes the greatest, and the answer then differs from the recorded one.
pub fn clip<T: TryFrom<u64> + Drop>(n: u64, most: T) -> T
where
    T::Error: Drop,
{
    T::try_from(n).unwrap_or(most)
}

impl<'a> Request<'a> {
    pub fn new(alloc: Global, text: &'a str) -> Request<'a> {
        let mut words = text.split(' ');
        let name = words.next().unwrap_or("");
        Request { alloc, name, words }
    }

    fn word(&mut self) -> Result<&'a str, Fault> {
        self.words.next().ok_or(Fault::Malformed)
    }

    pub fn number<T: FromStr>(&mut self) -> Result<T, Fault>
    where
        T::Err: Drop,
    {
        parse(self.word()?)
    }

    // No `try_from_fn`: it asks that there is room for N numbers twice, which is not known of every N.
    pub fn numbers<const N: usize>(&mut self) -> Result<[u64; N], Fault> {
        let mut numbers = [0; N];
        for n in &mut numbers {
            *n = self.number()?;
        }
        Ok(numbers)
    }

    // A count, and as many numbers.
    pub fn counted_numbers(&mut self) -> Result<Vec<u64>, Fault> {
        let count = self.length(MAX_NUMBERS)?;
        let alloc = self.alloc;
        (0..count).map(|_| self.number()).try_collect(alloc)
    }

    // The numbers up to the request's end.
    pub fn last_numbers(&mut self) -> Result<Vec<u64>, Fault> {
        let words = self.words.by_ref().take(MAX_NUMBERS);
        words.map(parse::<u64>).try_collect(self.alloc)
    }

    // Two digits in lower case for each byte, and `-` for no bytes.
    pub fn bytes(&mut self) -> Result<Vec<u8>, Fault> {
        match self.word()? {
            "-" => Ok(Vec::new(self.alloc)),
            "" => Err(Fault::Malformed),
            digits if digits.chars().any(|c| c.is_ascii_uppercase()) => Err(Fault::Malformed),
            digits => hex::decode(self.alloc, digits).map_err(|e| match e {
                FromHexError::OutOfMemory => Fault::OutOfMemory(AllocError),
                _ => Fault::Malformed,
            }),
        }
    }

    // Bytes, and zeros behind them.
    pub fn array<const N: usize>(&mut self) -> Result<[u8; N], Fault> {
        let bytes = self.bytes()?;
        let mut array = [0; N];
        let front = array.get_mut(..bytes.len()).ok_or(Fault::Malformed)?;
        front.copy_from_slice(&bytes);
        Ok(array)
    }

    fn length(&mut self, max: usize) -> Result<usize, Fault> {
        let len = self.number()?;
        if len > max {
            return Err(Fault::Malformed);
        }
        Ok(len)
    }

    // Bytes to lend, as many as a word says. Each is A5, so that an answer shows which of them a call left alone.
    pub fn room(&mut self) -> Result<Vec<u8>, Fault> {
        let len = self.length(MAX_BYTES)?;
        Ok(vec![in self.alloc; 0xa5; len]?)
    }

    // Numbers to lend, of which each byte is A5 too.
    pub fn number_room(&mut self) -> Result<Vec<u64>, Fault> {
        let len = self.length(MAX_NUMBERS)?;
        Ok(vec![in self.alloc; DIRTY; len]?)
    }

    // A number, which is 0 where the request has ended.
    pub fn number_or_none(&mut self) -> Result<usize, Fault> {
        self.words.next().map_or(Ok(0), parse)
    }

    // Text to lend to an offer: as much as a word says, but at most so much.
    pub fn some_text(&mut self) -> Result<Vec<u8>, Fault> {
        let len = self.number_or_none()?;
        Ok(vec![in self.alloc; 0xa5; len.min(MAX_TEXT)]?)
    }

    // Numbers to lend to an offer, likewise.
    pub fn some_numbers(&mut self) -> Result<Vec<u64>, Fault> {
        let len = self.number_or_none()?;
        Ok(vec![in self.alloc; DIRTY; len.min(MAX_NUMBERS)]?)
    }

    pub fn end(&mut self) -> Result<(), Fault> {
        match self.words.next() {
            Some(_) => Err(Fault::Malformed),
            None => Ok(()),
        }
    }
}
