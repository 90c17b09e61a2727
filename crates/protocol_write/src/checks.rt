// What an encoder tests before it writes: the rows' count, their numbers, their nodes, and then the texts in reading order.
ghost use Rattle.std.specs.Prelude.{◌≡◌, ◌*◌, ◌+◌, ◌<◌, ltb, length, get_or, MatchResult, Ok};
ghost use Rattle.varint.specs.Gathering.{name_held, text_held};
ghost use Rattle.varint.specs.Inner.Again.{Accepted};
ghost use Rattle.varint.specs.Leb128.{put_u64};
ghost use Rattle.varint.specs.Outs.{declared};
ghost use Rattle.desc.specs.Emitting.{verdict};
ghost use Rattle.desc.specs.Encoding.{held_in};
ghost use Rattle.desc.specs.Table.{table};
ghost use Rattle.protocol.specs.Page.{raw_held};
ghost use Rattle.protocol.specs.Rows.{width_of};
ghost use Rattle.protocol.specs.Types.{type_laid};
ghost use Rattle.protocol.specs.declared.message.RowKind.TheVariants as K;
ghost use Rattle.protocol_write.specs.Inner.Checking.{row_count, Cut, numbers_told, nodes_fine, ValueLaid, RowLaid, value_names, row_names, rows_names, there, rows_fine, startup_fine, reply_fine, fetch_fine, fine, size_if, fields_size, type_size, types_size, sized_as};
ghost use Rattle.protocol_write.specs.Inner.Writing.{pen, put_rows, size_of, Sizes};

use crate::columns;
use crate::lent::Lent;
use crate::rows::{BoundedRow, NamedRow, SentRow, span_at, value_root};
use crate::write::Writer;
use desc::node;
use desc::node::read_cell;
use desc::write::{Emitted, check_name, check_names, size_desc};
use protocol::message::{Claim, ControlReply, Id, Message, Pair, Predicate, RowKind, Span, Step};
use varint::error::{Fault, Refusal};
use varint::len_u64;
use varint::utf8::is_utf8;

// Are the bytes there? They may be any.
#[tactic(auto, unfolding(desc::specs::Emitting::verdict, protocol::specs::Page::raw_held))]
fn check_raw(text: &[u8], span: Span) -> Result<(), Refusal>
    ensures { result ≡ verdict (raw_held text.now span.start span.len) }
{
    if span.is_past(text) {
        return Err(Refusal::BadMessage(Fault::Texts));
    }
    Ok(())
}

// Is the free text there, and is it UTF-8? That is what desc's `check_name` asks of a name too; each has its own function, since a name is to get a
// rule of its own and a text keeps its line breaks, as the definitions `name_held` and `text_held` are two.
#[tactic(auto, using(crate::proofs::TextChecks::text_told), unfolding(desc::specs::Emitting::then_names))]
fn check_text(text: &[u8], span: Span) -> Result<(), Refusal>
    ensures { result ≡ verdict (text_held text.now span.start span.len) }
{
    check_raw(text, span)?;
    if !is_utf8(text, span.start, span.len) {
        return Err(Refusal::BadString);
    }
    Ok(())
}

// The names of the descriptor whose root is node `n`. The nodes are laid out, so their end is read from the root and not found by a second walk.
#[tactic(auto, using(crate::proofs::NodeChecks::desc_names))]
fn check_desc(lent: &Lent<'_>, n: usize) -> Result<(), Refusal>
    requires { Accepted (table lent.now.limit lent.now.nodes.now n 0) }
    ensures { result ≡ verdict (held_in (table lent.now.limit lent.now.nodes.now n 0) lent.now.text.now) }
{
    let end = read_cell(lent.nodes, n, node::END);
    check_names(lent.text, lent.nodes, n + 1, end as usize)
}

// The names of a type's value, where it has one, whose root is node `root`.
#[tactic(auto, unfolding(crate::specs::Inner::Checking::value_names))]
fn check_value(lent: &Lent<'_>, root: Option<usize>) -> Result<(), Refusal>
    requires { ValueLaid lent.now.limit lent.now.nodes.now root }
    ensures { result ≡ value_names lent.now.limit lent.now.text.now lent.now.nodes.now root }
{
    match root {
        None => Ok(()),
        Some(n) => check_desc(lent, n),
    }
}

// The texts of a type: its name, and those of its key and its value.
#[tactic(auto, unfolding(crate::specs::Inner::Checking::row_names, desc::specs::Emitting::then_names))]
fn check_type(lent: &Lent<'_>, row: &[u64]) -> Result<(), Refusal>
    requires whole { length row.now ≡ 6 }
    requires laid { RowLaid K.Predicate lent.now.limit row.now lent.now.nodes.now 0 }
    ensures { result ≡ row_names K.Predicate lent.now.limit lent.now.text.now row.now lent.now.nodes.now 0 }
{
    check_name(lent.text, span_at(row, columns::TYPE_NAME))?;
    check_desc(lent, row[columns::TYPE_KEY] as usize)?;
    check_value(lent, value_root(lent.nodes, row))
}

// How many bytes of a type stand before and between its descriptors: its id, its name and two flags.
#[tactic(auto, unfolding(crate::specs::Inner::Checking::fields_size))]
fn fields_size(row: &[u64]) -> usize
    requires { 5 < length row.now }
    ensures { result ≡ declared (fields_size row.now 0) }
{
    let name = span_at(row, columns::TYPE_NAME);
    let flags = 2;
    let tail = name.len.saturating_add(flags);
    let named = len_u64(name.len as u64).saturating_add(tail);
    len_u64(row[columns::TYPE_ID]).saturating_add(named)
}

// The node after those of a type, the first of which must be node `n`, and how many bytes the type has.
fn size_type(lent: &Lent<'_>, row: &[u64], n: usize) -> Option<Emitted>
    requires { 5 < length row.now }
    ensures { result ≡ sized_as (type_laid lent.now.limit row.now lent.now.nodes.now 0 n) (declared (type_size lent.now.limit row.now lent.now.nodes.now 0)) }
{
    if row[columns::TYPE_KEY] != n as u64 {
        return None;
    }
    let key = size_desc(lent.nodes, n, lent.limit)?;
    let place = fields_size(row).saturating_add(key.place);
    if row[columns::TYPE_VALUE] == 0 {
        return Some(Emitted {
            next: key.next,
            place,
        });
    }
    let value = size_desc(lent.nodes, key.next, lent.limit)?;
    Some(Emitted {
        next: value.next,
        place: place.saturating_add(value.place),
    })
}

// How many bytes the types have, whose nodes must stand one behind the other, without a gap.
#[tactic(auto, unfolding(crate::specs::Inner::Checking::nodes_fine, crate::specs::Inner::Checking::size_if), using(crate::proofs::NodeChecks::type_next, crate::proofs::NodeChecks::type_wrong, crate::proofs::TypeSizes::size_next, crate::proofs::TypeSizes::sizes_end))]
fn size_types(lent: &Lent<'_>, rows: &[u64]) -> Result<usize, Refusal>
    ensures { result ≡ size_if (nodes_fine K.Predicate lent.now.limit rows.now lent.now.nodes.now (row_count K.Predicate rows.now)) (declared (types_size lent.now.limit rows.now lent.now.nodes.now (row_count K.Predicate rows.now) 0)) }
{
    let mut n: usize = 0;
    let mut size: usize = 0;
    for row in rows.chunks_exact(Predicate::width()) {
        let sized = size_type(lent, row, n).ok_or(Refusal::BadMessage(Fault::Layout))?;
        n = sized.next;
        size = size.saturating_add(sized.place);
    }
    Ok(size)
}

// Are there fewer rows than `count`? By a division, since a product might not fit.
pub fn few_rows(kind: RowKind, rows: &[u64], count: u64) -> bool
    ensures { result ≡ ltb (length rows.now) (count * width_of kind) }
{
    let whole = rows.len() / kind.width();
    (whole as u64) < count
}

// The numbers of the first `count` rows, which are there.
pub(crate) fn cut_rows<R: SentRow>(rows: &[u64], count: u64) -> &[u64]
    requires { there R.KIND rows.now count ≡ Ok tt }
    ensures { Cut R.KIND rows.now count result.now }
{
    &rows[..count as usize * R::width()]
}

// The numbers of the first `count` rows, if they are there.
#[tactic(auto, unfolding(crate::specs::Inner::Checking::there))]
fn first_rows<R: SentRow>(rows: &[u64], count: u64) -> Result<&[u64], Refusal>
    ensures { MatchResult result (λ part. (there R.KIND rows.now count ≡ Ok tt) × Cut R.KIND rows.now count part.now) (λ e. there R.KIND rows.now count ≡ Err e) }
{
    if few_rows(R::KIND, rows, count) {
        return Err(Refusal::BadMessage(Fault::RowCount));
    }
    Ok(cut_rows::<R>(rows, count))
}

// May a message have the numbers of all rows?
#[tactic(auto, unfolding(crate::specs::Inner::Checking::numbers_told), using(crate::proofs::RowLoops::number_good, crate::proofs::RowLoops::number_bad, crate::proofs::RowLoops::numbers_end))]
fn check_numbers<R: BoundedRow>(rows: &[u64]) -> Result<(), Refusal>
    ensures { result ≡ numbers_told R.KIND rows.now (row_count R.KIND rows.now) }
{
    for row in rows.chunks_exact(R::width()) {
        if !R::good(row) {
            return Err(Refusal::BadMessage(Fault::Number));
        }
    }
    Ok(())
}

// The texts of all types, one type after the other.
#[tactic(auto, using(crate::proofs::RowLoops::row_named, crate::proofs::RowLoops::names_end, crate::proofs::RowsLaid::rows_laid, crate::proofs::RowsLaid::others_laid))]
fn check_texts(lent: &Lent<'_>, rows: &[u64]) -> Result<(), Refusal>
    requires { nodes_fine K.Predicate lent.now.limit rows.now lent.now.nodes.now (row_count K.Predicate rows.now) ≡ Ok tt }
    ensures { result ≡ rows_names K.Predicate lent.now.limit lent.now.text.now rows.now lent.now.nodes.now (row_count K.Predicate rows.now) 0 }
{
    for row in rows.chunks_exact(Predicate::width()) {
        check_type(lent, row)?;
    }
    Ok(())
}

// Checks the texts of all rows, one row after the other, and tells the place after the rows.
#[tactic(auto, unfolding(crate::specs::Inner::Checking::size_if), using(crate::proofs::RowLoops::row_named, crate::proofs::RowLoops::names_end, crate::proofs::RowLoops::put_turn, crate::proofs::RowLoops::put_end, crate::proofs::RowsLaid::rows_laid, crate::proofs::RowsLaid::first_laid, crate::proofs::RowsLaid::others_laid))]
fn size_named<R: NamedRow>(rows: &[u64], gauge: &mut Writer<'_>) -> Result<usize, Refusal>
    requires { nodes_fine R.KIND gauge.old.lent.now.limit rows.now gauge.old.lent.now.nodes.now (row_count R.KIND rows.now) ≡ Ok tt }
    ensures { result ≡ size_if (rows_names R.KIND gauge.old.lent.now.limit gauge.old.lent.now.text.now rows.now gauge.old.lent.now.nodes.now (row_count R.KIND rows.now) 0) (put_rows R.KIND gauge.old.lent.now.limit gauge.old.lent.now.text.now rows.now gauge.old.lent.now.nodes.now (row_count R.KIND rows.now) 0 (pen gauge.old)).place }
{
    for row in rows.chunks_exact(R::width()) {
        R::check(gauge.lent, row)?;
        R::write(row, gauge);
    }
    Ok(gauge.at)
}

// Checks the types of a message, and tells the place after them; the gauge has passed what stands before.
#[tactic(auto, unfolding(crate::specs::Inner::Checking::rows_fine, crate::specs::Inner::Checking::size_if, crate::specs::Inner::Writing::put_counted, desc::specs::Emitting::then_names), using(crate::proofs::RowLoops::cut_numbers, crate::proofs::RowsLaid::cut_nodes, crate::proofs::RowLoops::cut_names))]
fn check_types(count: u64, gauge: &mut Writer<'_>) -> Result<usize, Refusal>
    ensures { Sizes K.Predicate count (rows_fine K.Predicate gauge.old.lent.now.limit gauge.old.lent.now.text.now gauge.old.lent.now.rows.now gauge.old.lent.now.nodes.now count) gauge.old result }
{
    let lent = gauge.lent;
    let rows = first_rows::<Predicate>(lent.rows, count)?;
    check_numbers::<Predicate>(rows)?;
    let size = size_types(lent, rows)?;
    check_texts(lent, rows)?;
    gauge.varint(count);
    Ok(gauge.at.saturating_add(size))
}

// So for steps.
#[tactic(auto, unfolding(crate::specs::Inner::Checking::rows_fine, crate::specs::Inner::Checking::nodes_fine, crate::specs::Inner::Checking::size_if, crate::specs::Inner::Writing::put_counted, desc::specs::Emitting::then_names), using(crate::proofs::RowLoops::cut_numbers, crate::proofs::RowLoops::cut_names, crate::proofs::RowLoops::cut_put))]
fn check_steps(count: u64, gauge: &mut Writer<'_>) -> Result<usize, Refusal>
    ensures { Sizes K.Step count (rows_fine K.Step gauge.old.lent.now.limit gauge.old.lent.now.text.now gauge.old.lent.now.rows.now gauge.old.lent.now.nodes.now count) gauge.old result }
{
    let rows = first_rows::<Step>(gauge.lent.rows, count)?;
    check_numbers::<Step>(rows)?;
    gauge.varint(count);
    size_named::<Step>(rows, gauge)
}

// The claims' count is tested before the database's name.
#[tactic(auto, unfolding(crate::specs::Inner::Checking::startup_fine, crate::specs::Inner::Checking::nodes_fine, crate::specs::Inner::Checking::size_if, crate::specs::Inner::Writing::put_counted, desc::specs::Emitting::then_names), using(crate::proofs::RowLoops::cut_names, crate::proofs::RowLoops::cut_put))]
fn check_startup(database: Span, count: u64, gauge: &mut Writer<'_>) -> Result<usize, Refusal>
    ensures { Sizes K.Claim count (startup_fine database gauge.old.lent.now.limit gauge.old.lent.now.text.now gauge.old.lent.now.rows.now gauge.old.lent.now.nodes.now count) gauge.old result }
{
    let rows = first_rows::<Claim>(gauge.lent.rows, count)?;
    check_name(gauge.lent.text, database)?;
    gauge.varint(count);
    size_named::<Claim>(rows, gauge)
}

// Ids may be any: they only have to be there.
#[tactic(auto, unfolding(crate::specs::Inner::Checking::nodes_fine, crate::specs::Inner::Checking::size_if))]
fn check_ids(count: u64, gauge: &mut Writer<'_>) -> Result<usize, Refusal>
    ensures { Sizes K.Id count (there K.Id gauge.old.lent.now.rows.now count) gauge.old result }
{
    first_rows::<Id>(gauge.lent.rows, count)?;
    gauge.counted::<Id>(count);
    Ok(gauge.at)
}

#[tactic(auto, unfolding(crate::specs::Inner::Checking::reply_fine))]
fn check_reply(reply: ControlReply, text: &[u8]) -> Result<(), Refusal>
    ensures { result ≡ reply_fine reply text.now }
{
    match reply {
        ControlReply::Created { instance } => check_name(text, instance),
        ControlReply::Finished { .. } | ControlReply::Removed => Ok(()),
    }
}

// A fetch has at most 4,096 ids.
#[tactic(auto, unfolding(crate::specs::Inner::Checking::fetch_fine, crate::specs::Inner::Checking::nodes_fine, crate::specs::Inner::Checking::size_if, desc::specs::Emitting::then_names))]
fn check_fetch(count: u64, gauge: &mut Writer<'_>) -> Result<usize, Refusal>
    ensures { Sizes K.Pair count (fetch_fine gauge.old.lent.now.rows.now count) gauge.old result }
{
    first_rows::<Pair>(gauge.lent.rows, count)?;
    if Message::MAX_FETCH < count {
        return Err(Refusal::too_large(count, Message::MAX_FETCH));
    }
    gauge.counted::<Pair>(count);
    Ok(gauge.at)
}

// Can the message be written? Then it has this size; 2^64−1 stands for more as well.
#[tactic(auto, unfolding(crate::specs::Inner::Checking::fine, crate::specs::Inner::Checking::size_if, crate::specs::Inner::Writing::size_of, crate::specs::Inner::Writing::put_message, crate::specs::Inner::Writing::put_body, desc::specs::Emitting::then_names))]
pub(crate) fn check_message(message: &Message, lent: &Lent<'_>) -> Result<usize, Refusal>
    ensures { result ≡ size_if (fine lent.now.limit message.now lent.now.text.now lent.now.rows.now lent.now.nodes.now) (size_of lent.now.limit message.now lent.now.text.now lent.now.rows.now lent.now.nodes.now) }
{
    let mut gauge = Writer {
        lent,
        out: &mut [],
        at: 0,
    };
    gauge.head(message);
    match *message {
        Message::Startup {
            database,
            claims,
            ..
        } => check_startup(database, claims, &mut gauge),
        Message::Ids { count } => check_ids(count, &mut gauge),
        Message::Types { count } => check_types(count, &mut gauge),
        Message::Profile { steps } => check_steps(steps, &mut gauge),
        Message::Fetch { count, .. } => check_fetch(count, &mut gauge),
        Message::Error { text: span, .. } => check_text(lent.text, span).and(Ok(gauge.at)),
        Message::Control {
            database,
            schema,
            ..
        } => {
            check_name(lent.text, database)?;
            check_text(lent.text, schema).and(Ok(gauge.at))
        }
        Message::Reply(reply) => check_reply(reply, lent.text).and(Ok(gauge.at)),
        Message::Page { cursor, query, .. } => {
            check_raw(lent.text, cursor)?;
            check_text(lent.text, query).and(Ok(gauge.at))
        }
        Message::Opaque { payload } => check_raw(lent.text, payload).and(Ok(gauge.at)),
        Message::Ready { .. } | Message::Complete { .. } | Message::ListingDigest { .. } => Ok(
            gauge.at,
        ),
    }
}
