// Lists a run of frames: reads the kind table and then the run from standard input, and prints a line for each frame and one for the end. What the lines are
// stands in `listing`; this program reads and writes. A read or a write that fails is the error that `main` returns, and ends it with no last line: the run is
// not known to be over.
#![tactic(auto)]

ghost use Rattle.std.specs.Prelude.{◌≡◌, ◌+◌, ◌*◌, ◌<◌, ◌≤◌, IfOk, OnErr, length, take};
ghost use Rattle.std.specs.Io.KnownBytes.{Consumes, IsAtEnd, Keeps};
ghost use Rattle.io.specs.Counts.{IsPrefixLen};

use frame::receiver::Receiver;
use listing::{BYTES, LAST_LINE, Last, NUMBERS};
use std::io::{Error, ErrorKind, Read, Result, Write};
use varint::error::Code;

// How much of a run is read at once.
const CHUNK: usize = 32768;

// Room for the lines of so much: at most 84 bytes for each nine bytes, and 84 more.
const PAGE: usize = 307200;

// Reads what there is, as much as fits, and answers how much: 0 at the end of the input. A read that a signal ended is made again: the turns are counted up to a
// number that no program uses up.
fn read_some<R: Read>(input: &mut R, buf: &mut [u8]) -> Result<usize>
    ensures bound { IfOk result (λ n. IsPrefixLen n buf.new) }
    ensures taken { IfOk result (λ n. Consumes (R.remaining input.old) (R.remaining input.new) (take n buf.new)) }
    ensures end { IfOk result (λ n. n ≡ 0 → 0 < length buf.old → IsAtEnd (R.remaining input.new)) }
    ensures err { OnErr result (Keeps (R.remaining input.old) (R.remaining input.new)) }
{
    for _ in 0..u64::MAX {
        match input.read(buf) {
            Ok(n) => return Ok(n),
            Err(e) if e.kind() == ErrorKind::Interrupted => {}
            Err(e) => return Err(e),
        }
    }
    Err(Error::from(ErrorKind::Interrupted))
}

// Reads until `buf` is full or the input ends, however few bytes a read brings. No `for`: each read tells how far it came.
fn read_full<R: Read>(input: &mut R, buf: &mut [u8]) -> Result<usize>
    ensures bound { IfOk result (λ n. IsPrefixLen n buf.new) }
    ensures taken { IfOk result (λ n. Consumes (R.remaining input.old) (R.remaining input.new) (take n buf.new)) }
    ensures end { IfOk result (λ n. n < length buf.old → IsAtEnd (R.remaining input.new)) }
{
    let mut count = 0;
    while count < buf.len() {
        let n = read_some(input, &mut buf[count..])?;
        if n == 0 {
            break;
        }
        count += n;
    }
    Ok(count)
}

// Prints the last line.
fn print_last<W: Write>(output: &mut W, last: Last) -> Result<()> {
    let mut line = [0u8; LAST_LINE];
    let n = listing::put_last(&mut line, last);
    output.write_all(&line[..n])
}

// The memory of a run: a piece and the page of its lines, and what the receiver is lent. It is fixed, as a gateway's: nothing is taken from the heap.
#[derive(Drop)]
struct Memory {
    chunk: [u8; CHUNK],
    page: [u8; PAGE],
    hold: [u8; BYTES],
    text: [u8; BYTES],
    rows: [u64; NUMBERS],
    nodes: [u64; NUMBERS],
}

// Reads the next piece of the run and prints its lines, for all of which the page has room: how the run ends if no piece follows, or nothing where this is its
// end. Receiver, input, output and memory stay apart: a struct of them would be made once, and be generic twice.
fn list_next<R: Read, W: Write>(
    receiver: &mut Receiver,
    input: &mut R,
    output: &mut W,
    memory: &mut Memory,
) -> Result<Option<Last>> {
    let n = read_some(input, &mut memory.chunk)?;
    if n == 0 {
        return Ok(None);
    }
    let listed = listing::list_piece(
        receiver,
        &memory.chunk[..n],
        &mut memory.hold,
        &mut memory.text,
        &mut memory.rows,
        &mut memory.nodes,
        &mut memory.page,
    );
    output.write_all(&memory.page[..listed.len])?;
    Ok(Some(listed.last))
}

// Lists a run to its end or its stop, and answers how it ends. Nothing says that the input ends, so the pieces are counted up to a number that no run uses up.
fn list_run<R: Read, W: Write>(
    receiver: &mut Receiver,
    input: &mut R,
    output: &mut W,
    memory: &mut Memory,
) -> Result<Last> {
    let mut last = Last::Held(0);
    for _ in 0..u64::MAX {
        let Last::Held(_) = last else {
            break;
        };
        match list_next(receiver, input, output, memory)? {
            Some(next) => last = next,
            None => break,
        }
    }
    Ok(last)
}

// A function of its own, since the prover does not write so long an array out.
fn empty_page() -> [u8; PAGE] {
    [0; PAGE]
}

fn main(rt: HostRuntime) -> Result<()> {
    let mut input = rt.stdin();
    let mut output = rt.stdout();
    let mut table = [0u8; 256];
    let n = read_full(&mut input, &mut table)?;
    let mut memory = Memory {
        chunk: [0; CHUNK],
        page: empty_page(),
        hold: io::large_buffer(),
        text: io::large_buffer(),
        rows: [0; NUMBERS],
        nodes: [0; NUMBERS],
    };
    let mut receiver = Receiver::unopened();
    let last = match receiver.open(&table[..n], &mut memory.hold) {
        Err(e) => Last::Stopped(Code::from(e).number),
        Ok(()) => list_run(&mut receiver, &mut input, &mut output, &mut memory)?,
    };
    print_last(&mut output, last)
}
