// Document 01 as definitions, in specs/, and the theorems about them, in proofs/. The refusals are the only code: their numbers stand
// in specs/Refusals.antt for the contracts.
#![tactic(auto)]

ghost use Rattle.std.specs.Prelude.{◌≡◌};
ghost use Rattle.bisection.specs.Numbers.{number_of};

// Why an entry refuses, with document 01's number.
#[derive(Clone, Copy)]
pub enum Refusal {
    Dimension = 1,
    Depth = 2,
    Length = 3,
    Permutation = 4,
    Orthant = 5,
    Sign = 6,
    Step = 7,
    Face = 8,
    Root = 9,
    Deepest = 10,
    Short = 11,
    Point = 12,
    Record = 13,
    Leaf = 14,
    Large = 15,
}

impl From<Refusal> for u8 {
    ghost from_gives = { λ refusal number. number ≡ number_of refusal };

    fn from(refusal: Refusal) -> u8 {
        refusal as u8
    }
}

// The number of an answer that is done.
pub const DONE: u8 = 0;

// A refusal, and the offset of the record at which it was found while a sheet was read.
#[derive(Clone, Copy)]
pub struct Refused {
    pub refusal: Refusal,
    pub offset: usize,
}

// One that no sheet gave is at 0.
impl From<Refusal> for Refused {
    ghost from_gives = { λ refusal refused. refused ≡ record { refusal = refusal; offset = 0 } };

    fn from(refusal: Refusal) -> Refused {
        Refused { refusal, offset: 0 }
    }
}
