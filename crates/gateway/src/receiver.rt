// The entry points of the receiver, which the host lends, as it does each buffer alone: C passes a pointer and a length for each.
ghost use Rattle.std.specs.Prelude.{◌≡◌};
ghost use Rattle.gateway.specs.FrameEntries.{result_of, of_outcome, OpensTo, OffersTo};
ghost use Rattle.gateway.specs.Answers.{numbers_of};

use crate::answers::{accepted, given, of_done, of_message, tell};
use crate::frames::with_header;
use crate::named;
use frame::receiver::{Outcome, Receiver};

// Tells an outcome, the message's number by the kind table, and gives the call's result.
fn tell_outcome(receiver: &Receiver, used: u64, o: Outcome, answer: &mut [u64; 16]) -> u64
    ensures { (result ≡ result_of o) × (answer.new ≡ numbers_of (of_outcome receiver.now.table used o)) }
{
    match o {
        Outcome::More => {
            tell(accepted(used, 0, [0; 6]), answer);
            0
        }
        Outcome::Handed {
            header,
            answer: message,
        } => {
            let number = named(receiver.entry(header.kind) as u64);
            tell(
                with_header(header, used, of_message(number as u64, message)),
                answer,
            );
            1
        }
        Outcome::Stopped(e) => {
            tell(given(e, used, 0, [0; 6]), answer);
            2
        }
        Outcome::Refused(e) => {
            tell(given(e, used, 0, [0; 6]), answer);
            3
        }
    }
}

#[tactic(auto, unfolding(crate::specs::FrameEntries::open_call))]
pub fn fjord_open(
    receiver: &mut Receiver,
    table: &[u8],
    hold: &mut [u8],
    answer: &mut [u64; 16],
) -> u64
    ensures { OpensTo receiver.old table.now hold.old answer.old result receiver.new hold.new answer.new }
{
    let opening = receiver.open(table, hold);
    tell(of_done(opening), answer)
}

#[tactic(auto, unfolding(crate::specs::FrameEntries::offer_call), using(frame::proofs::OfferKeeps::offer_keeps))]
pub fn fjord_offer(
    receiver: &mut Receiver,
    piece: &[u8],
    hold: &mut [u8],
    text: &mut [u8],
    rows: &mut [u64],
    nodes: &mut [u64],
    answer: &mut [u64; 16],
) -> u64
    ensures { OffersTo receiver.old piece.now hold.old text.old rows.old nodes.old answer.old result receiver.new hold.new text.new rows.new nodes.new answer.new }
{
    let offered = receiver.offer(piece, hold, text, rows, nodes);
    tell_outcome(receiver, offered.used as u64, offered.outcome, answer)
}
