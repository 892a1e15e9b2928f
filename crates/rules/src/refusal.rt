// Why a call is refused: a name for each number of document 01's table, and from 30 on of document 02's tickets.
ghost use Rattle.std.specs.Prelude.{◌≡◌};
ghost use Rattle.rules.specs.Refusal.{number, code};

#[derive(Clone, Copy, Debug, PartialEq, Eq, Hash)]
pub enum Refusal {
    IdTooLarge = 1,
    QueueExists = 2,
    SizeOutOfRange = 3,
    BaseNotAligned = 4,
    RingOutsideMemory = 5,
    RingsOverlap = 6,
    WrongCompletionQueue = 7,
    ClassTooLarge = 8,
    NoSuchQueue = 9,
    InvalidDoorbellValue = 10,
    QueueMarked = 11,
    NoCandidate = 12,
    TooFewTags = 13,
    NotOutstanding = 14,
    StatusTooLarge = 15,
    FirstHalfOutstanding = 16,
    NoFreeSlot = 17,
    InvalidPrpOffset = 18,
    ListEntryOutsideMemory = 19,
    LengthOutOfRange = 20,
    BufferTooShort = 21,
    PageSizeTooLarge = 22,
    UnknownMechanism = 23,
    BadRecord = 30,
    ShortRecord = 31,
    NumbersUsedUp = 32,
    CommandsOutstanding = 33,
    NamedBySubmissionQueue = 34,
    AdminQueue = 35,
}

impl Refusal {
    pub fn number(self) -> u64
        ensures { result ≡ number self }
    {
        self as u64
    }
}

// The number of an answer that has no value: 0 where the call was done.
pub fn code(answer: Result<(), Refusal>) -> u64
    ensures { result ≡ code answer }
{
    match answer {
        Ok(()) => 0,
        Err(refusal) => refusal.number(),
    }
}
