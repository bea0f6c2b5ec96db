// Why a call refuses, with the number that C sees; and the definitions and laws of those numbers.
#![tactic(auto)]

ghost use Rattle.std.specs.Prelude.{◌≡◌};
ghost use Rattle.refusals.specs.Refusal.{number_of, unplaced};

// Why a call refuses, with the number that C sees. share/numbers.tsv says when each is given.
#[derive(Clone, Copy, Debug, PartialEq, Eq)]
pub enum Refusal {
    BadLength = 1,
    TooManyWords = 2,
    ShortBuffer = 3,
    ShortScratch = 4,
    LongChain = 5,
    BadSwap = 6,
    BadOrder = 7,
    LongSheet = 9,
    BadLine = 10,
    LargeSheet = 11,
    PastLines = 12,
    LongBuffer = 13,
    BadRelease = 14,
    BadTile = 15,
    BadColumn = 16,
    NoRoom = 17,
    FarNumber = 18,
    NothingUsable = 19,
    NoneCommon = 20,
    BadTicks = 21,
    OtherCycles = 22,
    PastStages = 23,
    ShortBytes = 24,
    OtherColumn = 25,
    BadRun = 26,
}

impl Refusal {
    pub fn number(self) -> u32
        ensures { result ≡ number_of self }
    {
        self as u32
    }
}

// A refusal that names a place: of the swap, the line or the pair that it is about. A refusal that is about none has place 0.
#[derive(Clone, Copy, Debug, PartialEq, Eq)]
pub struct Refused {
    pub refusal: Refusal,
    pub place: usize,
}

impl From<Refusal> for Refused {
    ghost from_gives = { λ refusal refused. refused ≡ unplaced refusal };

    fn from(refusal: Refusal) -> Refused {
        Refused { refusal, place: 0 }
    }
}
