// The memory that a decoder writes.
use crate::answer::{Hex, Numbers};
use crate::fault::Fault;
use crate::request::Request;
use std::fmt;

#[derive(Drop)]
pub struct Lent {
    pub text: Vec<u8>,
    pub rows: Vec<u64>,
    pub nodes: Vec<u64>,
}

impl Lent {
    // As much as the request's next words say.
    pub fn take(request: &mut Request<'_>) -> Result<Lent, Fault> {
        Ok(Lent {
            text: request.room()?,
            rows: request.number_room()?,
            nodes: request.number_room()?,
        })
    }

    // What an offer is lent. It is never refused: of more than an answer has room for there is less than the request's words say.
    pub fn take_some(request: &mut Request<'_>) -> Result<Lent, Fault> {
        Ok(Lent {
            text: request.some_text()?,
            rows: request.some_numbers()?,
            nodes: request.some_numbers()?,
        })
    }
}

// An answer has all of it.
impl fmt::Display for Lent {
    fn fmt<W: fmt::Write>(&self, f: &mut fmt::Formatter<W>) -> fmt::Result {
        let text = Hex(&self.text);
        let rows = Numbers(&self.rows);
        let nodes = Numbers(&self.nodes);
        write!(f, "text {text} rows{rows} nodes{nodes}")
    }
}
