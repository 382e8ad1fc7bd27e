// What an answer number means, under the names of the C header (HARPTIMBER_DATA is DATA here). An answer that says why there is no data is
// an error: of opening a card, or of a walk on it. Its number is in specs/: Number.
#![tactic(auto)]

ghost use Rattle.std.specs.Prelude.{◌≡◌};
ghost use Rattle.answer.specs.Number.{refusal_number, stop_number};

// Done: the other numbers hold the result.
pub const DATA: u32 = 0;

// The block is a hole: zeros.
pub const HOLE: u32 = 1;

// Compare: the new image gives the same answer.
pub const SAME: u32 = 15;

// Compare: something that the answer rested on has changed.
pub const CHANGED: u32 = 16;

// The lent room is too small for the keep file.
pub const NO_ROOM: u32 = 17;

// The bytes are no keep file.
pub const BAD_KEEP_FILE: u32 = 18;

// Why no card is opened.
#[derive(Clone, Copy, Debug, PartialEq, Eq)]
pub enum Refusal {
    // The call itself is out of shape: a bad name, number or length.
    OutOfShape = 4,
    // Neither copy of the superblock passes.
    NoSuperblock = 5,
    // The card has features or a payload, which aren't read.
    Features = 6,
    // Neither checkpoint pack passes.
    NoCheckpoint = 7,
    // The checkpoint pack in use has its maps or a journal out of place.
    Unreadable = 8,
}

// What ends a walk on an opened card.
#[derive(Clone, Copy, Debug, PartialEq, Eq)]
pub enum Stop {
    // A directory on the path has no such name.
    NoName = 2,
    // The block index lies past the end.
    PastEnd = 3,
    // A node number is out of range, or its address is 0.
    NoNode = 9,
    // A node's address lies outside the main area.
    NodeOutside = 10,
    // A node block belongs elsewhere.
    ForeignNode = 11,
    // An inode of a kind that isn't read.
    KindNotRead = 12,
    // A data address lies outside the main area.
    DataOutside = 13,
    // A directory entry is malformed.
    MalformedSlot = 14,
}

impl Refusal {
    pub fn number(self) -> u32
        ensures { result ≡ refusal_number self }
    {
        self as u32
    }
}

impl Stop {
    pub fn number(self) -> u32
        ensures { result ≡ stop_number self }
    {
        self as u32
    }
}
