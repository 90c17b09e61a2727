// Why a call refuses (error.rs, with the refusals that the gateway adds), and the numbers that stand for it.
ghost use Rattle.std.specs.Prelude.{◌≡◌};
ghost use Rattle.varint.specs.Refusals.{mismatch_number, buffer_number, fault_number, code_of};
ghost use Rattle.varint.specs.declared.error.Refusal.TheVariants.{BlockTooLarge, TooSmall};

use crate::MAX_U32;

// What a byte of a known place should have been.
#[derive(Clone, Copy)]
pub enum Mismatch {
    Mode = 1,
    Version,
    ErrorCode,
    ControlOp,
    ControlFlag,
    AlreadyComplete,
    FullScan,
}

// The lent buffers that can be too small.
#[derive(Clone, Copy)]
pub enum Buffer {
    Text = 1,
    Rows,
    Nodes,
    Hold,
    Out,
}

// What an encoder finds wrong in a message: a text past the text's end, too few rows, nodes that are not laid out as a
// message's, a number that no such message has.
#[derive(Clone, Copy)]
pub enum Fault {
    Texts = 1,
    RowCount,
    Layout,
    Number,
}

#[derive(Clone, Copy)]
pub enum Refusal {
    UnexpectedEof,
    VarintOverflow,
    VarintNotMinimal,
    BadString,
    LengthOutOfRange { declared: u64, available: u64 },
    UnknownRefForm(u64),
    UnknownDiscriminant(u64),
    BadFactId(u64),
    TypeMismatch(Mismatch),
    TrailingBytes(u64),
    UnknownPredicate,
    BlockTooLarge { declared: u64, max: u64 },
    BadDigestFlag(u8),
    BadListingPredicate(u64),
    TooDeep(u64),
    TooSmall { which: Buffer, needed: u64 },
    BadReceiver,
    BadKindTable(u64),
    BadMessage(Fault),
}

// A refusal as its number and two details, as C is told it; all zeros where nothing was refused.
#[derive(Clone, Copy, Default)]
pub struct Code {
    pub number: u64,
    pub a: u64,
    pub b: u64,
}

impl Refusal {
    // The refusal of a buffer that is lent too small. The test stands where it is given, as that of each refusal does: each compares other things, and what a
    // function of test and refusal would spare is a `return`.
    pub fn too_small(which: Buffer, needed: usize) -> Refusal
        ensures { result ≡ TooSmall which needed }
    {
        Refusal::TooSmall {
            which,
            needed: needed as u64,
        }
    }

    // The refusal of what is declared to be more than there may be.
    pub fn too_large(declared: u64, max: u64) -> Refusal
        ensures { result ≡ BlockTooLarge declared max }
    {
        Refusal::BlockTooLarge { declared, max }
    }
}

impl Code {
    fn new(number: u64, a: u64, b: u64) -> Code
        ensures { result ≡ record { number = number; a = a; b = b } }
    {
        Code { number, a, b }
    }
}

impl From<Mismatch> for u64 {
    ghost from_gives = { λ m n. n ≡ mismatch_number m };

    fn from(m: Mismatch) -> u64 {
        m as u64
    }
}

impl From<Buffer> for u64 {
    ghost from_gives = { λ b n. n ≡ buffer_number b };

    fn from(b: Buffer) -> u64 {
        b as u64
    }
}

impl From<Fault> for u64 {
    ghost from_gives = { λ f n. n ≡ fault_number f };

    fn from(fault: Fault) -> u64 {
        fault as u64
    }
}

impl From<Refusal> for Code {
    ghost from_gives = { λ r c. c ≡ code_of r };

    fn from(r: Refusal) -> Code {
        match r {
            Refusal::UnexpectedEof => Code::new(1, 0, 0),
            Refusal::VarintOverflow => Code::new(2, 0, 0),
            Refusal::VarintNotMinimal => Code::new(3, 0, 0),
            Refusal::BadString => Code::new(4, 0, 0),
            Refusal::LengthOutOfRange {
                declared,
                available,
            } => Code::new(5, declared, available),
            Refusal::UnknownRefForm(tag) => Code::new(6, tag, 0),
            Refusal::UnknownDiscriminant(n) => Code::new(7, n, 0),
            Refusal::BadFactId(n) => Code::new(8, n, 0),
            Refusal::TypeMismatch(m) => Code::new(9, u64::from(m), 0),
            Refusal::TrailingBytes(n) => Code::new(10, n, 0),
            Refusal::UnknownPredicate => Code::new(11, MAX_U32, 0),
            Refusal::BlockTooLarge { declared: n, max } => Code::new(12, n, max),
            Refusal::BadDigestFlag(n) => Code::new(13, u64::from(n), 0),
            Refusal::BadListingPredicate(n) => Code::new(14, n, 0),
            Refusal::TooDeep(max) => Code::new(15, max, 0),
            Refusal::TooSmall { which, needed } => Code::new(16, u64::from(which), needed),
            Refusal::BadReceiver => Code::new(17, 0, 0),
            Refusal::BadKindTable(n) => Code::new(18, n, 0),
            Refusal::BadMessage(fault) => Code::new(19, u64::from(fault), 0),
        }
    }
}
