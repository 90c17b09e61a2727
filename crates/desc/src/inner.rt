// What the crates above call: each function relies on what its caller has proved.
ghost use Rattle.std.specs.Prelude.{◌≡◌, ◌+◌, ◌≤◌};
ghost use Rattle.varint.specs.Inner.Again.{Accepted, Again};
ghost use Rattle.desc.specs.Reading.{desc};
ghost use Rattle.desc.specs.Table.{table};
ghost use Rattle.desc.specs.Inner.Emission.{put_at};
ghost use Rattle.desc.specs.Inner.Walking.{reading};

use crate::write::{NO_PARENT, Table, Writer};
use crate::{Memory, Source, Walked};
use varint::error::Refusal;

// Reads the descriptor at place `at` of a message. The reading that checks stores nothing; the other stores its texts from place t of text on and its nodes
// from node n on. The places past it are told in both.
pub fn read_desc(
    s: &[u8],
    at: usize,
    limit: u64,
    check: bool,
    text: &mut [u8],
    t: usize,
    nodes: &mut [u64],
    n: usize,
) -> Result<Walked, Refusal>
    requires before { t + n ≤ at }
    requires again { Again check (desc limit limit s.now at) }
    ensures { record { answer = result; text = text.new; nodes = nodes.new } ≡ reading check (desc limit limit s.now at) text.old t nodes.old n }
{
    let source = Source { s, limit, check };
    // Two memories, and not one that is chosen: a struct that holds `&mut` can't come out of an `if`.
    if check {
        let mut nowhere = Memory {
            text: &mut [],
            t,
            nodes: &mut [],
            n,
        };
        return nowhere.root(&source, at);
    }
    let mut memory = Memory { text, t, nodes, n };
    memory.root(&source, at)
}

// Writes the tree whose root is node `n` from place `at` of `out` on, as far as `out` goes, and returns the place after it: for whoever writes a descriptor
// within other bytes.
pub fn put_desc(
    text: &[u8],
    nodes: &[u64],
    n: usize,
    limit: u64,
    out: &mut [u8],
    at: usize,
) -> usize
    requires { Accepted (table limit nodes.now n 0) }
    ensures { record { out = out.new; place = result } ≡ put_at text.now (table limit nodes.now n 0) (record { out = out.old; place = at }) }
{
    let mut writer = Writer { out, at };
    let _ = Table { text, nodes }.emit(n, NO_PARENT, limit, &mut writer);
    writer.at
}
