// A node of the table: its numbers by their columns. A node is told by its number beside the whole table: numbers of nodes are answers too, and one may lie
// past the end; of `&nodes[k..]` each caller would owe that it does not.
ghost use Rattle.std.specs.Prelude.{◌≡◌, ◌*◌, ◌/◌, ◌≤◌, ◌<◌, length, MatchOption};
ghost use Rattle.std.proofs.lemmas.List.Edits.{sets};
ghost use Rattle.desc.specs.Layout.{width, node_of};
ghost use Rattle.desc.specs.Table.{cell};
ghost use Rattle.desc.specs.Inner.Rows.{row_at};

use crate::head::Label;
use varint::store::store;

// How many numbers a node has, and which of them is which.
pub const WIDTH: usize = 7;

pub const TAG: usize = 0;

pub const START: usize = 1;

pub const LEN: usize = 2;

pub const DISCRIMINANT: usize = 3;

pub const PREDICATE: usize = 4;

pub const COUNT: usize = 5;

pub const END: usize = 6;

// Stores node n. Each number is stored by itself: of a node that the table's end cuts, what lies inside is stored, and a row (`first_chunk_mut`) would be
// of whole nodes alone.
pub(crate) fn store_node(
    nodes: &mut [u64],
    n: usize,
    tag: u64,
    label: Label,
    predicate: u64,
    count: u64,
    end: usize,
)
    ensures { nodes.new ≡ sets nodes.old (n * width) (node_of tag label.name.start label.name.len label.discriminant predicate count end) }
{
    if n < nodes.len() {
        let k = n * WIDTH;
        let name = label.name;
        store(nodes, k, tag);
        store(nodes, k + START, name.start as u64);
        store(nodes, k + LEN, name.len as u64);
        store(nodes, k + DISCRIMINANT, label.discriminant);
        store(nodes, k + PREDICATE, predicate);
        store(nodes, k + COUNT, count);
        store(nodes, k + END, end as u64);
    }
}

// The number in column `c` of node `n`, 0 where there is none.
pub fn read_cell(nodes: &[u64], n: usize, c: usize) -> u64
    ensures { result ≡ cell nodes.now n c }
{
    let place = n.saturating_mul(WIDTH).saturating_add(c);
    nodes.get(place).copied().unwrap_or(0)
}

// The numbers of node `n`, if it is there whole.
#[inline(always)]
pub(crate) fn row(nodes: &[u64], n: usize) -> Option<&[u64; WIDTH]>
    ensures { MatchOption result (length nodes.now / width ≤ n) (λ row. (n < length nodes.now / width) × (row.now ≡ row_at nodes.now n)) }
{
    nodes.as_chunks::<WIDTH>().0.get(n)
}

// The numbers of node `n`, which is there whole.
#[inline(always)]
pub(crate) fn whole_row(nodes: &[u64], n: usize) -> &[u64; WIDTH]
    requires { n < length nodes.now / width }
    ensures { result.now ≡ row_at nodes.now n }
{
    &nodes.as_chunks::<WIDTH>().0[n]
}
