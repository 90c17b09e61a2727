// The lines that the lister prints, as bytes in a lent buffer: of a frame, of a piece of a run, and of its end. A writer stores what lies inside the buffer and
// answers how many bytes its text has. The buffer and the place in it stand side by side, since `put_decimal` may be asked for a place past the end; so do text,
// rows and nodes, as `Receiver::offer` takes them. No `Display`: the library says what `write!` writes where it succeeds, and not that it does, which these promise.
#![tactic(auto)]

ghost use Rattle.std.specs.Prelude.{◌≡◌, [], ◌∷◌, ◌+◌, ◌*◌, ◌≤◌, length};
ghost use Rattle.std.proofs.lemmas.List.Edits.{sets};
ghost use Rattle.varint.specs.Outs.{declared};
ghost use Rattle.frame.specs.Worlds.{editor};
ghost use Rattle.frame.specs.Offering.{world_of};
ghost use Rattle.frame.specs.Driving.{driving};
ghost use Rattle.listing.specs.Listing.{listed, listing_of};
ghost use Rattle.listing.specs.Inner.Lasts.{last_by};
ghost use Rattle.listing.specs.Lines.{decimal, column, line_of, number_of, held_of, last_line};

use frame::FrameHeader;
use frame::receiver::{Outcome, Receiver};
use protocol::message::Message;
use varint::error::{Code, Refusal};
use varint::store::{copy_bytes, store};

// What a lister lends a receiver: hold and text have so many bytes, rows and nodes so many numbers.
pub const BYTES: usize = 65536;

pub const NUMBERS: usize = 8192;

// Room for the last line.
pub const LAST_LINE: usize = 29;

// How a run ends: the count of header and payload bytes that are held, or the number of the refusal that stopped it, which is all that is printed of it.
#[derive(Clone, Copy)]
pub enum Last {
    Held(u64),
    Stopped(u64),
}

// The decimal digits of `n`, from place `at` on.
#[tactic(auto, unfolding(varint::specs::Stores::part), using(crate::proofs::LineLaws::digits_decimal, varint::proofs::StoreLaws::part_all))]
pub fn put_decimal(out: &mut [u8], at: usize, n: u64) -> usize
    ensures { (result ≡ length (decimal n)) × (out.new ≡ sets out.old at (decimal n)) }
{
    let mut digits = [0u8; 20];
    let count = io::decimal(n, &mut digits);
    copy_bytes(&digits[..count], 0, count, out, at);
    count
}

// A number and the byte after it.
#[tactic(auto, unfolding(crate::specs::Lines::column), using(crate::proofs::LineLaws::decimal_length_64, crate::proofs::LineLaws::set_after, std::proofs::lemmas::Grind::common_steps))]
fn put_column(out: &mut [u8], at: usize, n: u64, end: u8) -> usize
    requires { at ≤ 100 }
    ensures { (result ≡ length (column n end)) × (result ≤ 21) × (out.new ≡ sets out.old at (column n end)) }
{
    let count = put_decimal(out, at, n);
    store(out, at + count, end);
    count + 1
}

// 0, or the number of the refusal: what a line has, so no `Option`, of which the number would be made again.
pub fn number_of(answer: Result<Message, Refusal>) -> u64
    ensures { result ≡ number_of answer }
{
    match answer {
        Ok(_) => 0,
        Err(e) => Code::from(e).number,
    }
}

// The header and payload bytes that a receiver holds; 2^64−1 stands for more as well.
fn held_of(receiver: &Receiver) -> u64
    ensures { result ≡ held_of receiver.now }
{
    let header = receiver.progress.header_len as u64;
    let payload = receiver.progress.payload_len as u64;
    header.saturating_add(payload)
}

// The line of a frame, from the start of `out` on. It has at most 84 bytes. `number` is the refusal's number as it is printed, or 0.
#[tactic(auto, unfolding(crate::specs::Lines::line_of), using(crate::proofs::LineLaws::sets_after, std::proofs::lemmas::Grind::common_steps))]
pub fn put_line(out: &mut [u8], header: FrameHeader, number: u64) -> usize
    ensures { (result ≡ length (line_of header.kind.0 header.stream header.length number)) × (result ≤ 84) × (out.new ≡ sets out.old 0 (line_of header.kind.0 header.stream header.length number)) }
{
    let a = put_column(out, 0, u64::from(header.kind.0), b' ');
    let b = a + put_column(out, a, u64::from(header.stream), b' ');
    let c = b + put_column(out, b, u64::from(header.length), b' ');
    c + put_column(out, c, number, b'\n')
}

// The last line, from the start of `out` on. It has at most 29 bytes.
#[tactic(auto, unfolding(crate::specs::Lines::last_line, varint::specs::Stores::part), using(crate::proofs::LineLaws::sets_after))]
pub fn put_last(out: &mut [u8], last: Last) -> usize
    ensures { (result ≡ length (last_line last)) × (result ≤ 29) × (out.new ≡ sets out.old 0 (last_line last)) }
{
    let (word, n): (&[u8], u64) = match last {
        Last::Held(n) => (b"held ", n),
        Last::Stopped(n) => (b"stopped ", n),
    };
    copy_bytes(word, 0, word.len(), out, 0);
    word.len() + put_column(out, word.len(), n, b'\n')
}

// A piece that was listed: how many bytes its lines have, and how the run ends if no piece follows.
#[derive(Clone, Copy)]
pub struct Listed {
    pub len: usize,
    pub last: Last,
}

// The line of a frame, from place `at` of the page on: what lies past the page's end is counted and not stored. Answers the place after it, 2^64−1 for any
// place past that.
#[tactic(auto, using(crate::proofs::PageLaws::placed))]
fn add_line(page: &mut [u8], at: usize, header: FrameHeader, number: u64) -> usize
    ensures { (result ≡ declared (at + length (line_of header.kind.0 header.stream header.length number))) × (result ≤ at + 84) × (page.new ≡ sets page.old at (line_of header.kind.0 header.stream header.length number)) }
{
    let from = at.min(page.len());
    let count = put_line(&mut page[from..], header, number);
    at.saturating_add(count)
}

// How a run ends whose last offer was answered so.
fn last_of(receiver: &Receiver, outcome: Outcome) -> Last
    ensures { result ≡ last_by outcome receiver.now }
{
    match outcome {
        Outcome::More => Last::Held(held_of(receiver)),
        Outcome::Handed {
            header: _,
            answer: _,
        } => Last::Held(held_of(receiver)),
        Outcome::Stopped(e) => Last::Stopped(e.number),
        Outcome::Refused(e) => Last::Stopped(e.number),
    }
}

// Offers a piece until it is used up or the run ends, and puts the lines of its frames on the page. A page of 84 bytes for each nine bytes of the piece, and 84
// more, has room for them all. No `for`: each step tells how much of the piece it used.
pub fn list_piece(
    receiver: &mut Receiver,
    piece: &[u8],
    hold: &mut [u8],
    text: &mut [u8],
    rows: &mut [u64],
    nodes: &mut [u64],
    page: &mut [u8],
) -> Listed
    ensures { (listing_of result receiver.new hold.new text.new rows.new nodes.new page.new ≡ listed (driving editor (world_of receiver.old hold.old text.old rows.old nodes.old) (piece.now ∷ [])).run page.old) × (9 * result.len ≤ 84 * (length piece.now + 9)) }
{
    let mut at = 0;
    let mut len = 0;
    loop {
        let offered = receiver.offer(&piece[at..], hold, text, rows, nodes);
        let Outcome::Handed { header, answer } = offered.outcome else {
            return Listed {
                len,
                last: last_of(receiver, offered.outcome),
            };
        };
        len = add_line(page, len, header, number_of(answer));
        at += offered.used;
    }
}
