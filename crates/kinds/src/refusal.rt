//! The refusals of the whole product, each with its number.
ghost use Rattle.kinds.specs.Refusals.{number, Numbered};
ghost use Rattle.std.specs.Prelude.{◌≡◌};

/// Why a call was turned down.
#[derive(Clone, Copy, PartialEq, Eq, Debug)]
pub enum Refusal {
    /// 1: a place, or a number of entries, that is not there.
    NoPlace = 1,
    /// 2: too few free cells.
    NoCells = 2,
    /// 3: nothing to strike.
    NothingToStrike = 3,
    /// 4: already parked.
    AlreadyParked = 4,
    /// 5: the slip is not for this sheet's parking.
    WrongSlip = 5,
    /// 6: the line is not a form.
    NotAForm = 6,
    /// 7: too few words, or the version or the zero bits of the head.
    BadHead = 7,
    /// 8: another kind.
    OtherKind = 8,
    /// 9: the plan is not lawful.
    UnlawfulPlan = 9,
    /// 10: too many entries.
    TooManyEntries = 10,
    /// 11: a level's count, start or words, or words left over.
    BadLevel = 11,
    /// 12: unused onward bits that are not zero.
    StrayOnwardBits = 12,
    /// 13: a wrong word in the directory.
    BadDirectory = 13,
    /// 14: unused chunk bits that are not zero.
    StrayChunkBits = 14,
    /// 15: a top chunk of zero.
    EmptyTopChunk = 15,
    /// 16: a number that denotes no entry.
    NoSuchEntry = 16,
    /// 17: too few words or records.
    NoRoom = 17,
    /// 24: want of memory.
    NoMemory = 24,
}

impl Refusal {
    /// The number of the refusal, as the books and the programs print it. No two refusals share a
    /// number.
    #[tactic(auto, using(crate::proofs::Cases::numbered))]
    pub fn number(self) -> u8
        ensures value { result ≡ number self }
        ensures numbered { Numbered }
    {
        self as u8
    }
}
