// The kind bytes of frames (frame.rs, protocol.rs): which message a frame carries, and what asks for one.

// A frame's kind byte. `G` means two things: what a client sends asks for a page, what a server sends opens a copy. No enum: any byte may stand in a frame, and
// which of the two `G` means the byte does not say.
#[derive(Clone, Copy)]
pub struct FrameKind(pub u8);

impl FrameKind {
    // Of every stream.
    pub const COPY_IN_RESPONSE: FrameKind = FrameKind(b'G');

    pub const COPY_DATA: FrameKind = FrameKind(b'd');

    pub const COPY_DONE: FrameKind = FrameKind(b'c');

    pub const ROW_DESCRIPTION: FrameKind = FrameKind(b'T');

    pub const DATA_ROW: FrameKind = FrameKind(b'D');

    pub const ERROR: FrameKind = FrameKind(b'E');

    // Of a session.
    pub const STARTUP: FrameKind = FrameKind(b'S');

    pub const READY: FrameKind = FrameKind(b'R');

    pub const OPEN_WRITE: FrameKind = FrameKind(b'W');

    pub const OPEN_WRITE_IDS: FrameKind = FrameKind(b'I');

    pub const IDS: FrameKind = FrameKind(b'i');

    pub const QUERY: FrameKind = FrameKind(b'Q');

    pub const QUERY_PROFILE: FrameKind = FrameKind(b'P');

    pub const PROFILE: FrameKind = FrameKind(b'p');

    pub const QUERY_PAGE: FrameKind = FrameKind(b'G');

    pub const QUERY_COUNT: FrameKind = FrameKind(b'N');

    pub const COUNT: FrameKind = FrameKind(b'n');

    pub const RESUME: FrameKind = FrameKind(b'r');

    pub const COMPLETE: FrameKind = FrameKind(b'C');

    pub const CANCEL: FrameKind = FrameKind(b'X');

    pub const CONTROL: FrameKind = FrameKind(b'L');

    pub const CONTROL_REPLY: FrameKind = FrameKind(b'M');

    pub const SCHEMA: FrameKind = FrameKind(b'H');

    pub const SCHEMA_REPLY: FrameKind = FrameKind(b'h');

    pub const TYPES: FrameKind = FrameKind(b'Y');

    pub const TYPES_REPLY: FrameKind = FrameKind(b'y');

    pub const FETCH: FrameKind = FrameKind(b'F');

    pub const LISTING_DIGEST: FrameKind = FrameKind(b'l');

    pub const FETCHED: FrameKind = FrameKind(b'f');
}
