// Why a call is refused, and where. specs/Refusals has the numbers.
ghost use Rattle.std.specs.Prelude.{◌≡◌};
ghost use Rattle.base.specs.Refusals.{number_of};

// What is wrong, with its number.
#[derive(Clone, Copy, Debug, PartialEq, Eq)]
pub enum Fault {
    PastEnd = 1,
    FirstField = 2,
    UnknownTag = 3,
    WrongLength = 4,
    TooManyInstructions = 5,
    ZeroBit = 6,
    NoSuchAddress = 7,
    WrongMode = 8,
    WrongCount = 9,
    NoSuchTarget = 10,
    NoHalt = 11,
    ShortIncoming = 20,
    ShortOutgoing = 21,
    ReplyNotFormed = 22,
    RecordUnfit = 23,
    RunEnded = 24,
    BadDemand = 25,
    BrokenRow = 31,
    BadLongword = 32,
}

impl Fault {
    pub fn number(self) -> u8
        ensures { result ≡ number_of self }
    {
        self as u8
    }
}

// A call refused: what is wrong, and the place of it.
#[derive(Clone, Copy, Debug, PartialEq, Eq)]
pub struct Refused {
    pub fault: Fault,
    pub place: usize,
}

// A fault with no place of its own.
impl From<Fault> for Refused {
    ghost use Rattle.base.specs.Refusals.{RefusedAtZero};

    ghost from_gives = { RefusedAtZero };

    fn from(fault: Fault) -> Refused
        ensures { RefusedAtZero fault result }
    {
        Refused { fault, place: 0 }
    }
}
