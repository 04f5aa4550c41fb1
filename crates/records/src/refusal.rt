// Why something is refused: the refusals of document 01, each with its number, and where one was found.
ghost use Rattle.std.specs.Prelude.{◌≡◌};
ghost use Rattle.records.specs.First.{at};
ghost use Rattle.records.specs.Refusal.{IsNumber};

// The refusals of document 01, by name.
#[derive(Clone, Copy, PartialEq, Eq)]
pub enum Refusal {
    Ended = 1, // the stream ends where a kind byte is due, or inside a body
    Reserved = 2, // the kind byte is reserved
    NotDue = 3, // the kind is known but not due here
    Followed = 4, // bytes follow the end record
    Frame = 5, // f is not 1 to 64
    Count = 6, // n is not 1 to 8
    NotNext = 7, // a client number is not the next one
    Rate = 8, // p is 0, q is 0 or p > q
    Latency = 9, // b is 0
    Owner = 10, // an owner exceeds n
    PastFrame = 11, // a place past f is not 255
    Room = 12, // the lent output is shorter than the stream
    Asked = 13, // the client asked about is not 1 to n
    NoSlot = 14, // that client owns no slot
    Waiting = 15, // the waiting number is not 1 to 255
    TooLarge = 16, // search with f > 8 or n > 4
    Position = 17, // the arbiter's position is not below f
    Arrivals = 18, // the arrivals list does not have n entries
}

impl Refusal {
    // The refusal, found at a place of a stream.
    pub fn at(self, offset: usize) -> Refused
        ensures { result ≡ at self offset }
    {
        At { why: self, offset }
    }
}

// A refusal's number.
impl From<Refusal> for u8 {
    ghost from_gives = { IsNumber };

    fn from(why: Refusal) -> u8 {
        why as u8
    }
}

// Why something is refused, and the offset where that was found: 0 where no stream is read.
#[derive(Clone, Copy, PartialEq, Eq)]
pub struct At<E> {
    pub why: E,
    pub offset: usize,
}

// What a check of a plan or of its stream refuses by.
pub type Refused = At<Refusal>;

// An answer outside reading says only why.
impl From<Refused> for Refusal {
    ghost from_gives = { λ refused why. why ≡ refused.why };

    fn from(refused: Refused) -> Refusal {
        refused.why
    }
}
