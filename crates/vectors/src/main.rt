// Replays recorded requests through the library, and compares each answer with the recorded one.
//
// A data file has a request to a line, `REQUEST = ANSWER`; blank lines and lines that start with `#` are skipped. A line whose
// answer differs is printed with the answer that came, and at the end each file has a line with its counts. A read or a write
// that fails is the error that `main` returns.
#![tactic(auto)]

mod answer;
mod fault;
mod fields;
mod frame_ops;
mod lent;
mod list_ops;
mod message_ops;
mod replay;
mod request;
mod varint_ops;

use replay::{MAX_LINE, replay_line};
use std::fs::File;
use std::io::{BufRead, BufReader, Read, Result, Take};
use std::rt::Files;

// The next line, without its end; of one that has more than `MAX_LINE` bytes so many and one more, so that no line takes more memory. False where the file has
// no more lines.
fn next_line<R: BufRead>(file: &mut Take<R>, line: &mut Vec<u8>) -> Result<bool> {
    line.clear();
    file.set_limit(MAX_LINE as u64 + 1);
    if file.read_until(b'\n', line)? == 0 {
        return Ok(false);
    }
    if line.ends_with(b"\n") {
        line.pop();
    } else if line.len() > MAX_LINE {
        file.get_mut().skip_until(b'\n')?;
    }
    Ok(true)
}

fn replay_file<R: Files + Print + AllocGlobal>(rt: &R, name: &str) -> Result<()> {
    let Ok(file) = File::open(rt, name) else {
        return println!(rt; "{name}: cannot be opened");
    };
    let alloc = rt.alloc();
    let mut count = 0u64;
    let mut differ = 0u64;
    let mut file = BufReader::new(alloc, file)?.take(0);
    let mut line = Vec::new(alloc);
    // Nothing says that a file ends, so the lines are counted up to a number that no run uses up.
    for _ in 0..u64::MAX {
        if !next_line(&mut file, &mut line)? {
            break;
        }
        // A line that is too long differs, whatever it starts with.
        if line.is_empty() || (line.len() <= MAX_LINE && line.starts_with(b"#")) {
            continue;
        }
        count = count.saturating_add(1);
        if let Err(fault) = replay_line(alloc, &line) {
            differ = differ.saturating_add(1);
            let shown = line.get(..MAX_LINE).unwrap_or(&line);
            print!(rt; "differs: ")?;
            rt.write_all(shown)?;
            println!(rt; "\n    {fault}")?;
        }
    }
    println!(rt; "{name}: {count} lines, {differ} differ")
}

fn main(rt: HostRuntime) -> Result<()> {
    for name in [
        "varint.txt",
        "desc.txt",
        "messages.txt",
        "frame.txt",
        "lister.txt",
        "oracle.txt",
    ] {
        replay_file(&rt, name)?;
    }
    Ok(())
}
