// How an encoder tests and writes a row of each kind. Each kind is a type, so that the loops over rows have no switch in them; a kind has only the
// tests that it needs. A row is the slice that `chunks_exact` gives, and its length is asked for: a struct of it would be made in every loop.
ghost use Rattle.std.specs.Prelude.{◌≡◌, ◌+◌, ◌<◌, length, get_or};
ghost use Rattle.protocol.specs.Rows.{width_of};
ghost use Rattle.protocol_write.specs.Inner.Checking.{row_good, RowLaid, row_names, value_root};
ghost use Rattle.protocol_write.specs.Inner.Writing.{Writes, put_row};

use crate::columns;
use crate::lent::Lent;
use crate::write::Writer;
use desc::node;
use desc::node::read_cell;
use desc::write::check_name;
use protocol::message::{Claim, Id, Pair, Predicate, Row, SEQUENCES, Span, Step};
use varint::MAX_U32;
use varint::error::Refusal;

// A row of a kind, as its numbers.
pub(crate) trait SentRow: Row {
    // How many numbers it has.
    final fn width() -> usize
        ensures { result ≡ width_of Self.KIND }
    {
        Self::KIND.width()
    }

    fn write(row: &[u64], writer: &mut Writer<'_>)
        requires whole { length row.now ≡ width_of Self.KIND }
        requires laid { RowLaid Self.KIND writer.old.lent.now.limit row.now writer.old.lent.now.nodes.now 0 }
        ensures { Writes (put_row Self.KIND writer.old.lent.now.limit writer.old.lent.now.text.now row.now writer.old.lent.now.nodes.now 0) writer.old writer.new };
}

// A row with numbers of which a message may not have all.
pub(crate) trait BoundedRow: SentRow {
    // May a message have its numbers?
    fn good(row: &[u64]) -> bool
        requires { length row.now ≡ width_of Self.KIND }
        ensures { result ≡ row_good Self.KIND row.now 0 };
}

// A row with a text and no nodes.
pub(crate) trait NamedRow: SentRow {
    // Its text.
    fn check(lent: &Lent<'_>, row: &[u64]) -> Result<(), Refusal>
        requires { length row.now ≡ width_of Self.KIND }
        ensures { result ≡ row_names Self.KIND lent.now.limit lent.now.text.now row.now lent.now.nodes.now 0 };
}

// The text whose place and length stand in a row from number `k` on.
pub(crate) fn span_at(row: &[u64], k: usize) -> Span
    requires { k + 1 < length row.now }
    ensures { result ≡ record { start = get_or row.now k 0; len = get_or row.now (k + 1) 0 } }
{
    Span::of(row[k], row[k + 1])
}

// The root of a type's value, where the type has one: the node after its key.
#[tactic(auto, unfolding(crate::specs::Inner::Checking::value_root))]
pub(crate) fn value_root(nodes: &[u64], row: &[u64]) -> Option<usize>
    requires { 5 < length row.now }
    ensures { result ≡ value_root nodes.now (get_or row.now 4 0) (get_or row.now 5 0) }
{
    if row[columns::TYPE_VALUE] == 0 {
        return None;
    }
    let key = row[columns::TYPE_KEY];
    let root = read_cell(nodes, key as usize, node::END);
    Some(root as usize)
}

impl SentRow for Claim {
    #[tactic(auto, unfolding(crate::specs::Inner::Writing::put_row))]
    fn write(row: &[u64], writer: &mut Writer<'_>) {
        writer.labelled(row);
    }
}

impl NamedRow for Claim {
    #[tactic(auto, unfolding(crate::specs::Inner::Checking::row_names))]
    fn check(lent: &Lent<'_>, row: &[u64]) -> Result<(), Refusal> {
        check_name(lent.text, span_at(row, columns::LABEL_NAME))
    }
}

impl SentRow for Id {
    #[tactic(auto, unfolding(crate::specs::Inner::Writing::put_row))]
    fn write(row: &[u64], writer: &mut Writer<'_>) {
        writer.varint(row[columns::ID]);
    }
}

impl SentRow for Predicate {
    #[tactic(auto, unfolding(crate::specs::Inner::Writing::put_row, crate::specs::Inner::Writing::put_type))]
    fn write(row: &[u64], writer: &mut Writer<'_>) {
        writer.varint(row[columns::TYPE_ID]);
        writer.text(span_at(row, columns::TYPE_NAME));
        writer.flag(row[columns::TYPE_VIRTUAL] != 0);
        writer.desc(row[columns::TYPE_KEY] as usize);
        writer.value(value_root(writer.lent.nodes, row));
    }
}

impl BoundedRow for Predicate {
    #[tactic(auto, unfolding(crate::specs::Inner::Checking::row_good, protocol::specs::Types::type_numbers))]
    fn good(row: &[u64]) -> bool {
        (row[columns::TYPE_ID] <= MAX_U32)
            & (row[columns::TYPE_VIRTUAL] <= 1)
            & (row[columns::TYPE_VALUE] <= 1)
    }
}

impl SentRow for Step {
    #[tactic(auto, unfolding(crate::specs::Inner::Writing::put_row, crate::specs::Inner::Writing::put_step))]
    fn write(row: &[u64], writer: &mut Writer<'_>) {
        let scan = row[columns::STEP_SCAN];
        writer.labelled(row);
        writer.flag(scan != 0);
    }
}

impl BoundedRow for Step {
    #[tactic(auto, unfolding(crate::specs::Inner::Checking::row_good))]
    fn good(row: &[u64]) -> bool {
        row[columns::STEP_SCAN] <= 1
    }
}

impl NamedRow for Step {
    #[tactic(auto, unfolding(crate::specs::Inner::Checking::row_names))]
    fn check(lent: &Lent<'_>, row: &[u64]) -> Result<(), Refusal> {
        check_name(lent.text, span_at(row, columns::LABEL_NAME))
    }
}

// An id's two halves.
impl SentRow for Pair {
    #[tactic(auto, unfolding(crate::specs::Inner::Writing::put_row, crate::specs::Inner::Writing::put_pair))]
    fn write(row: &[u64], writer: &mut Writer<'_>) {
        let id = row[columns::ID];
        writer.two(id / SEQUENCES, id % SEQUENCES);
    }
}
