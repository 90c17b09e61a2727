// The display slot: a fixed run of bytes on a pump's display that shows one text.
ghost use Rattle.std.specs.Prelude.{◌≡◌};
ghost use Rattle.frame.specs.Slots.{put_slot};

use varint::error::{Fault, Refusal};
use varint::store::{copy_bytes, fill_from};
use varint::text::Span;

// Puts a text in the slot, as much of it as fits, and spaces after it; or a refusal, and the slot keeps what it shows.
#[tactic(auto, unfolding(crate::specs::Slots::put_slot), using(crate::proofs::SlotLaws::slot_shown))]
pub fn put_slot(text: &[u8], shown: Span, slot: &mut [u8]) -> Result<(), Refusal>
    ensures { record { answer = result; slot = slot.new } ≡ put_slot text.now shown.start shown.len slot.old }
{
    if shown.is_past(text) {
        return Err(Refusal::BadMessage(Fault::Texts));
    }
    copy_bytes(text, shown.start, shown.len, slot, 0);
    fill_from(slot, shown.len, b' ');
    Ok(())
}
