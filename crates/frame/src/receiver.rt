// The receiver: takes a run of bytes in pieces, as the network cut them, and hands out each frame with its message.
ghost use Rattle.std.specs.Prelude.{◌≡◌, ◌++◌, ℕ, ◌-◌, ◌≤◌, length, take, drop, get_or, replicate};
ghost use Rattle.frame.specs.Worlds.{editor, progress_of, receiver_of, running, pad};
ghost use Rattle.frame.specs.Reading.{gather, decoded_kind, judge as judging};
ghost use Rattle.frame.specs.Offering.{opens, impossible as impossibleFor, setup_of, header_held, handed, loads, settles, offering, world_of, offer_of};
ghost use Rattle.frame.specs.Frames.{header_of};
ghost use Rattle.frame.specs.Inner.Judging.{Judges};
ghost use Rattle.frame.specs.Inner.Lending.{lent_world, Leaves};
ghost use Rattle.frame.specs.declared.receiver.Outcome.TheVariants.{Refused as Declined};

use crate::kinds::FrameKind;
use crate::{Frame, FrameHeader, decode_header};
use protocol::decode;
use protocol::message::Message;
use varint::error::{Buffer, Code, Refusal};
use varint::store::{copy_bytes, fill_from};

// What an offer advances. A stop is the refusal's number and details, and 0 while the receiver runs: numbers, and each by itself, since this is memory that
// C lends and names so.
#[repr(C)]
#[derive(Clone, Copy)]
pub struct Progress {
    pub header: [u8; Frame::HEADER_LEN],
    pub header_len: usize,
    pub payload_len: usize,
    pub hold_len: usize,
    pub stop: u64,
    pub stop_a: u64,
    pub stop_b: u64,
}

// Plain numbers, so that a host can lend it.
#[repr(C)]
#[derive(Clone, Copy)]
pub struct Receiver {
    // The message that each kind byte names, 1 to 12; any other number: an opaque payload. No offer alters it.
    pub table: [u8; 256],
    pub progress: Progress,
}

#[derive(Clone, Copy)]
pub enum Outcome {
    // The piece is used up.
    More,
    // A frame, with its message or the refusal of it.
    Handed {
        header: FrameHeader,
        answer: Result<Message, Refusal>,
    },
    // The run stops here.
    Stopped(Code),
    // Nothing was used or altered.
    Refused(Code),
}

// What an offer answers, and how many bytes of the piece it used.
#[derive(Clone, Copy)]
pub struct Offered {
    pub used: usize,
    pub outcome: Outcome,
}

// What a frame's message is decoded into. The hold as a fourth field was tried: the prover does not follow a loan of it beside those of the others.
#[derive(Drop)]
struct Lent<'a> {
    text: &'a mut [u8],
    rows: &'a mut [u64],
    nodes: &'a mut [u64],
}

// What nine header bytes say: the run stops, or so much payload is to be gathered.
#[tactic(auto, unfolding(crate::specs::Frames::decode_header, crate::specs::Reading::judge))]
fn judge(header: &[u8; 9], room: usize) -> Result<FrameHeader, Refusal>
    ensures { Judges editor room header.now result }
{
    let judged = decode_header(header)?;
    let length = judged.length as usize;
    if room < length {
        return Err(Refusal::too_small(Buffer::Hold, length));
    }
    Ok(judged)
}

impl Progress {
    // Nothing is held yet.
    fn start(hold_len: usize) -> Progress
        ensures { result ≡ progress_of hold_len (replicate 9 0) 0 0 running }
    {
        Progress {
            header: [0u8; 9],
            header_len: 0,
            payload_len: 0,
            hold_len,
            stop: 0,
            stop_a: 0,
            stop_b: 0,
        }
    }

    // Counts that no offer leaves.
    #[tactic(auto, unfolding(crate::specs::Offering::impossible))]
    fn impossible(&self) -> bool
        ensures { result ≡ impossibleFor editor self.now }
    {
        if Frame::HEADER_LEN < self.header_len {
            return true;
        }
        if self.header_len < Frame::HEADER_LEN {
            return 0 < self.payload_len;
        }
        match judge(&self.header, self.hold_len) {
            Err(_) => true,
            Ok(h) => h.length as usize <= self.payload_len,
        }
    }

    // Takes the header bytes that it lacks from the piece, and puts zeros after them. They are not counted yet.
    #[tactic(auto, using(crate::proofs::ReceiverSteps::header_filled, crate::proofs::ReceiverSteps::header_kept))]
    fn fill_header(&mut self, piece: &[u8])
        requires { self.old.header_len ≤ 9 }
        ensures { self.new ≡ record self.old { header = pad 9 (header_held self.old ++ take (9 - self.old.header_len) piece.now) } }
    {
        let at = self.header_len;
        if at < Frame::HEADER_LEN {
            fill_from(&mut self.header, at, 0);
            copy_bytes(piece, 0, Frame::HEADER_LEN - at, &mut self.header, at);
        }
    }

    // The header that is held stops the run.
    fn halt(&mut self, stop: Code)
        ensures { self.new ≡ progress_of self.old.hold_len self.old.header 9 0 stop }
    {
        self.header_len = Frame::HEADER_LEN;
        self.payload_len = 0;
        self.stop = stop.number;
        self.stop_a = stop.a;
        self.stop_b = stop.b;
    }
}

impl Offered {
    fn refused(why: Code) -> Offered
        ensures { result ≡ record { used = 0; outcome = Declined why } }
    {
        Offered {
            used: 0,
            outcome: Outcome::Refused(why),
        }
    }
}

impl Receiver {
    // A receiver before its first opening.
    pub fn unopened() -> Receiver
        ensures { result ≡ receiver_of (record { table = replicate 256 0; room = 0 }) (replicate 9 0) 0 0 running }
    {
        Receiver {
            table: [0u8; 256],
            progress: Progress::start(0),
        }
    }

    // Opens the receiver over a kind table and a hold, and clears the hold; or all stays as it was.
    #[tactic(auto, unfolding(crate::specs::Offering::opens), using(crate::proofs::ReceiverSteps::cleared, varint::proofs::StoreLaws::copied_whole))]
    pub fn open(&mut self, table: &[u8], hold: &mut [u8]) -> Result<(), Refusal>
        ensures { record { opening = result; receiver = self.new; hold = hold.new } ≡ opens self.old table.now hold.old }
    {
        if table.len() != 256 {
            return Err(Refusal::BadKindTable(table.len() as u64));
        }
        copy_bytes(table, 0, 256, &mut self.table, 0); // `copy_from_slice` would be a call of C's `memmove`
        self.progress = Progress::start(hold.len());
        fill_from(hold, 0, 0);
        Ok(())
    }

    // The message that a kind names, as the table's byte, which may be any.
    pub fn entry(&self, kind: FrameKind) -> u8
        ensures { result ≡ get_or self.now.table kind.0 0 }
    {
        self.table[kind.0 as usize]
    }

    // The payload is whole in the hold: it is decoded, and header and hold go to zero.
    #[tactic(auto, unfolding(crate::specs::Offering::handed, crate::specs::Reading::decoded_kind), using(crate::proofs::ReceiverSteps::cleared))]
    fn hand_out(
        &mut self,
        header: FrameHeader,
        used: usize,
        hold: &mut [u8],
        lent: &mut Lent<'_>,
    ) -> Offered
        requires { header.length ≤ length hold.old }
        ensures { Leaves result self.new hold.new lent.old lent.new (handed (lent_world self.old hold.old lent.old) header used (decoded_kind editor (setup_of self.old) header.kind.0 (take header.length hold.old) (lent_world self.old hold.old lent.old).lent)) }
    {
        let entry = self.entry(header.kind);
        let payload = &hold[..header.length as usize];
        let answer = decode(entry, payload, lent.text, lent.rows, lent.nodes);
        fill_from(hold, 0, 0); // no byte of this frame may show in the next
        self.progress.header = [0; Frame::HEADER_LEN];
        self.progress.header_len = 0;
        self.progress.payload_len = 0;
        Offered {
            used,
            outcome: Outcome::Handed { header, answer },
        }
    }

    // Nine header bytes are there, and `rest` is what the piece has after the `used` of them that it brought; the payload is gathered in the hold.
    #[tactic(auto, using(crate::proofs::ReceiverSteps::loaded_short, crate::proofs::ReceiverSteps::loaded_whole))]
    fn load(
        &mut self,
        header: FrameHeader,
        used: usize,
        rest: &[u8],
        hold: &mut [u8],
        lent: &mut Lent<'_>,
    ) -> Offered
        requires { (header ≡ header_of self.old.progress.header) × (self.old.progress.payload_len ≤ header.length) × (header.length ≤ length hold.old) × (used ≤ 9) }
        ensures { Leaves result self.new hold.new lent.old lent.new (loads editor (lent_world self.old hold.old lent.old) self.old.progress.header used rest.now header.length) }
    {
        let have = self.progress.payload_len;
        let wanted = header.length as usize - have;
        let left = rest.len();
        copy_bytes(rest, 0, wanted, hold, have);
        if left < wanted {
            self.progress.header_len = Frame::HEADER_LEN;
            self.progress.payload_len = have + left;
            return Offered {
                used: used + left,
                outcome: Outcome::More,
            };
        }
        self.hand_out(header, used + wanted, hold, lent)
    }

    // Nine header bytes are there: the run stops, or the payload is gathered.
    #[tactic(auto, unfolding(crate::specs::Offering::settles), using(crate::proofs::ReceiverSteps::cleared))]
    fn settle(&mut self, used: usize, rest: &[u8], hold: &mut [u8], lent: &mut Lent<'_>) -> Offered
        requires { ((n : ℕ) → judging editor self.old.progress.hold_len self.old.progress.header ≡ gather n → self.old.progress.payload_len ≤ n) × (length hold.old ≡ self.old.progress.hold_len) × (used ≤ 9) }
        ensures { Leaves result self.new hold.new lent.old lent.new (settles editor (judging editor self.old.progress.hold_len self.old.progress.header) (lent_world self.old hold.old lent.old) self.old.progress.header used rest.now) }
    {
        match judge(&self.progress.header, self.progress.hold_len) {
            Err(e) => {
                let stop = Code::from(e);
                self.progress.halt(stop);
                fill_from(hold, 0, 0);
                Offered {
                    used,
                    outcome: Outcome::Stopped(stop),
                }
            }
            Ok(header) => self.load(header, used, rest, hold, lent),
        }
    }

    // Offers a piece of the run. It is read to the first frame's end, a stop or the piece's end; what is left of it after a frame is offered again. Text,
    // rows and nodes come one by one, as C lends them.
    #[tactic(auto, unfolding(crate::specs::Offering::offering), using(crate::proofs::ReceiverSteps::header_fits, crate::proofs::ReceiverSteps::header_short, crate::proofs::ReceiverSteps::header_there, crate::proofs::ReceiverSteps::room))]
    pub fn offer(
        &mut self,
        piece: &[u8],
        hold: &mut [u8],
        text: &mut [u8],
        rows: &mut [u64],
        nodes: &mut [u64],
    ) -> Offered
        ensures { offer_of result self.new hold.new text.new rows.new nodes.new ≡ offering editor (world_of self.old hold.old text.old rows.old nodes.old) piece.now }
    {
        if hold.len() != self.progress.hold_len {
            return Offered::refused(Code::from(Refusal::BadReceiver));
        }
        if self.progress.stop != 0 {
            return Offered::refused(Code {
                number: self.progress.stop,
                a: self.progress.stop_a,
                b: self.progress.stop_b,
            });
        }
        if self.progress.impossible() {
            return Offered::refused(Code::from(Refusal::BadReceiver));
        }
        let lacking = Frame::HEADER_LEN - self.progress.header_len;
        self.progress.fill_header(piece);
        if piece.len() < lacking {
            self.progress.header_len += piece.len();
            return Offered {
                used: piece.len(),
                outcome: Outcome::More,
            };
        }
        let mut lent = Lent { text, rows, nodes };
        self.settle(lacking, &piece[lacking..], hold, &mut lent)
    }
}
