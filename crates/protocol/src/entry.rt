// Which message an entry of the kind table names.
ghost use Rattle.std.specs.Prelude.{◌≡◌};
ghost use Rattle.protocol.specs.Entries.{entry_of};

// The number of an entry is its byte in the kind table.
#[derive(Clone, Copy)]
pub enum Entry {
    Startup = 1,
    Ready,
    Error,
    Complete,
    Ids,
    Types,
    Control,
    Reply,
    Profile,
    Page,
    Fetch,
    ListingDigest,
}

impl Entry {
    // The entry of a number, which may be any: what is none of the twelve names no message, and its payload is opaque. So this is no `TryFrom`: none is no refusal.
    pub fn of(number: u64) -> Option<Entry>
        ensures { result ≡ entry_of number }
    {
        match number {
            1 => Some(Entry::Startup),
            2 => Some(Entry::Ready),
            3 => Some(Entry::Error),
            4 => Some(Entry::Complete),
            5 => Some(Entry::Ids),
            6 => Some(Entry::Types),
            7 => Some(Entry::Control),
            8 => Some(Entry::Reply),
            9 => Some(Entry::Profile),
            10 => Some(Entry::Page),
            11 => Some(Entry::Fetch),
            12 => Some(Entry::ListingDigest),
            _ => None,
        }
    }
}
