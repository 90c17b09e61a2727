// The session messages (protocol.rs) as fields. A text is a place in the lent text; rows and nodes stand in the lent rows and nodes.
ghost use Rattle.std.specs.Prelude.{◌≡◌};
ghost use Rattle.protocol.specs.Codes.{mode_of, mode_byte, error_of, error_byte, op_of, op_byte};
ghost use Rattle.protocol.specs.Rows.{width_of};
ghost use Rattle.protocol.specs.Startup.{spoken_version};
ghost use Rattle.protocol.specs.declared.message.RowKind.{RowKind};
ghost use Rattle.protocol.specs.declared.message.RowKind.TheVariants as K;

use varint::error::{Mismatch, Refusal};

// A text of a message is `len` bytes of the lent text from place `start` on.
pub use varint::text::Span;

// How a session is opened. The number of a mode, a code or an op is its byte on the wire.
#[derive(Clone, Copy)]
pub enum Mode {
    ReadOnly = 0,
    ReadWrite = 1,
}

// What a server says went wrong.
#[derive(Clone, Copy)]
pub enum ErrorCode {
    Protocol = 1,
    UnknownDatabase,
    SchemaMismatch,
    ModeRefused,
    BadFacts,
    Conflict,
    BadQuery,
    Internal,
    InUse,
    Refused,
    Busy,
}

// Which operation of a database's life a control message asks for.
#[derive(Clone, Copy)]
pub enum ControlOp {
    Create = 1,
    Finish,
    Remove,
}

#[derive(Clone, Copy)]
pub enum ControlReply {
    Created {
        instance: Span,
    },
    Finished {
        fingerprint: u64,
        facts: u64,
        bytes: u64,
        already_complete: bool,
    },
    Removed,
}

// A message of rows has their count; a fetch may carry the digest of a listing; an opaque payload is one text.
#[derive(Clone, Copy)]
pub enum Message {
    Startup {
        version: u32,
        database: Span,
        mode: Mode,
        schema_fingerprint: u64,
        claims: u64,
    },
    Ready {
        version: u32,
        schema_fingerprint: u64,
        predicates: u64,
    },
    Error {
        code: ErrorCode,
        text: Span,
    },
    Complete {
        first: u64,
        second: u64,
    },
    Ids {
        count: u64,
    },
    Types {
        count: u64,
    },
    Control {
        op: ControlOp,
        database: Span,
        allow_zero_facts: bool,
        schema: Span,
    },
    Reply(ControlReply),
    Profile {
        steps: u64,
    },
    Page {
        limit: u64,
        cursor: Span,
        query: Span,
    },
    Fetch {
        digest: Option<u64>,
        count: u64,
    },
    ListingDigest {
        predicate: u32,
        digest: u64,
    },
    Opaque {
        payload: Span,
    },
}

// What the rows of a message are.
#[derive(Clone, Copy)]
pub enum RowKind {
    Claim,
    Id,
    Predicate,
    Step,
    Pair,
}

impl Message {
    // The version of the protocol that is spoken here.
    pub const VERSION: u32 = 4;

    // The most ids that a fetch may ask for.
    pub const MAX_FETCH: u64 = 4096;

    // `VERSION` as a function, since a contract can hold a function's answer to a definition and not a constant.
    pub fn spoken_version() -> u32
        ensures { result ≡ spoken_version }
    {
        Message::VERSION
    }
}

impl RowKind {
    // How many numbers a row has.
    pub fn width(self) -> usize
        ensures { result ≡ width_of self }
    {
        match self {
            RowKind::Claim => 3,
            RowKind::Id => 1,
            RowKind::Predicate => 6,
            RowKind::Step => 4,
            RowKind::Pair => 1,
        }
    }
}

// A kind of rows as a type, so that what reads, checks or writes rows is made for each kind by itself. The width stays
// with `RowKind`, by which the gateway asks for it.
pub trait Row {
    ghost KIND: { RowKind };

    const KIND: RowKind;
}

pub struct Claim;

pub struct Id;

pub struct Predicate;

pub struct Step;

pub struct Pair;

// An id is its predicate times this, and its sequence.
pub const SEQUENCES: u64 = 0x100_0000_0000;

impl Row for Claim {
    ghost KIND = { K.Claim };

    const KIND: RowKind = RowKind::Claim;
}

impl Row for Id {
    ghost KIND = { K.Id };

    const KIND: RowKind = RowKind::Id;
}

impl Row for Predicate {
    ghost KIND = { K.Predicate };

    const KIND: RowKind = RowKind::Predicate;
}

impl Row for Step {
    ghost KIND = { K.Step };

    const KIND: RowKind = RowKind::Step;
}

impl Row for Pair {
    ghost KIND = { K.Pair };

    const KIND: RowKind = RowKind::Pair;
}

// The bytes are written out here, and in entry.rt the numbers of entries: no derive makes a variant of its number.
impl TryFrom<u8> for Mode {
    type Error = Refusal;

    ghost try_from_gives = { λ b r. r ≡ mode_of b };

    fn try_from(byte: u8) -> Result<Mode, Refusal> {
        match byte {
            0 => Ok(Mode::ReadOnly),
            1 => Ok(Mode::ReadWrite),
            _ => Err(Refusal::TypeMismatch(Mismatch::Mode)),
        }
    }
}

impl From<Mode> for u8 {
    ghost from_gives = { λ m b. b ≡ mode_byte m };

    fn from(mode: Mode) -> u8 {
        mode as u8
    }
}

impl TryFrom<u8> for ErrorCode {
    type Error = Refusal;

    ghost try_from_gives = { λ b r. r ≡ error_of b };

    fn try_from(byte: u8) -> Result<ErrorCode, Refusal> {
        match byte {
            1 => Ok(ErrorCode::Protocol),
            2 => Ok(ErrorCode::UnknownDatabase),
            3 => Ok(ErrorCode::SchemaMismatch),
            4 => Ok(ErrorCode::ModeRefused),
            5 => Ok(ErrorCode::BadFacts),
            6 => Ok(ErrorCode::Conflict),
            7 => Ok(ErrorCode::BadQuery),
            8 => Ok(ErrorCode::Internal),
            9 => Ok(ErrorCode::InUse),
            10 => Ok(ErrorCode::Refused),
            11 => Ok(ErrorCode::Busy),
            _ => Err(Refusal::TypeMismatch(Mismatch::ErrorCode)),
        }
    }
}

impl From<ErrorCode> for u8 {
    ghost from_gives = { λ c b. b ≡ error_byte c };

    fn from(code: ErrorCode) -> u8 {
        code as u8
    }
}

impl TryFrom<u8> for ControlOp {
    type Error = Refusal;

    ghost try_from_gives = { λ b r. r ≡ op_of b };

    fn try_from(byte: u8) -> Result<ControlOp, Refusal> {
        match byte {
            1 => Ok(ControlOp::Create),
            2 => Ok(ControlOp::Finish),
            3 => Ok(ControlOp::Remove),
            _ => Err(Refusal::TypeMismatch(Mismatch::ControlOp)),
        }
    }
}

impl From<ControlOp> for u8 {
    ghost from_gives = { λ o b. b ≡ op_byte o };

    fn from(op: ControlOp) -> u8 {
        op as u8
    }
}
