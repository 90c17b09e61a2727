// The operation `list`: what the lister prints of an input, a kind table and then a run.
//
// A request has the length of the pieces in which the run is offered, and the input. The answer has the lines, a newline in them as `/`.
use crate::answer::Answer;
use crate::request::Request;
use frame::receiver::Receiver;
use listing::{BYTES, LAST_LINE, Last, NUMBERS};
use std::alloc::{AllocError, Global};
use varint::error::Code;

// A function of its own, since the prover does not write so long an array out.
fn buffer() -> [u8; BYTES] {
    [0; BYTES]
}

// The lines of a run in pieces of a size, over as much memory as the lister lends, which is fixed: taken from the heap, it would come from the system anew for each line. A table that is too short has no run after it; pieces of no bytes have no lines.
fn list_run(alloc: Global, size: usize, input: &[u8]) -> Result<Vec<u8>, AllocError> {
    let (table, run) = input.split_at(input.len().min(256));
    let mut hold = buffer();
    let mut text = buffer();
    let mut rows = [0; NUMBERS];
    let mut nodes = [0; NUMBERS];
    let mut page = buffer();
    let mut lines = Vec::new(alloc);
    let mut receiver = Receiver::unopened();
    let mut last = match receiver.open(table, &mut hold) {
        Ok(()) => Last::Held(0),
        Err(why) => Last::Stopped(Code::from(why).number),
    };
    if size > 0 {
        for piece in run.chunks(size) {
            let listed = listing::list_piece(
                &mut receiver,
                piece,
                &mut hold,
                &mut text,
                &mut rows,
                &mut nodes,
                &mut page,
            );
            last = listed.last;
            lines.extend_from_slice(page.get(..listed.len).unwrap_or(&page))?;
        }
    }
    let mut line = [0; LAST_LINE];
    let len = listing::put_last(&mut line, last);
    lines.extend_from_slice(&line[..len])?;
    Ok(lines)
}

pub fn list(request: &mut Request<'_>) -> Answer {
    let size = request.number()?;
    let input = request.bytes()?;
    let lines = list_run(request.alloc, size, &input)?;
    let text = String::from_utf8_lossy(request.alloc, &lines)?;
    let mut told = String::new(request.alloc);
    for line in text.lines() {
        if !told.is_empty() {
            told.push(' ')?;
        }
        write!(told, "{line}/")?;
    }
    Ok(told)
}
