// Why a call refuses. One enum for all layers, numbered as documents 01 and 02 number them; a row that is refused has a part besides (document 02, E7).
ghost use Rattle.std.specs.Prelude.{◌≡◌};
ghost use Rattle.field.specs.Answer.{code_of, number_of, part_of, place_of};
ghost use Rattle.field.specs.declared.refusal.Refusal.TheVariants as Why;

// The first rule that a parameter row breaks, in document 01's order: a number of 65,536 or more, K', S, H, W, B, P, ceil(B/S), L, and the derived numbers.
#[derive(Clone, Copy, Debug, PartialEq, Eq)]
pub enum Part {
    Wide,
    Kp,
    S,
    H,
    W,
    B,
    P,
    Ldpc,
    L,
    Derived,
}

#[derive(Clone, Copy, Debug, PartialEq, Eq)]
pub enum Refusal {
    DivisorZero,
    OutOfRange,
    BadTransmission,
    BadRow(Part),
    BadTables,
    Outside,
    SamePlace,
    WrongLength,
    BadCount,
    BadSize,
    NotBegun,
}

// A row whose rule of that part breaks.
impl From<Part> for Refusal {
    ghost from_gives = { λ part why. why ≡ Why.BadRow part };

    fn from(part: Part) -> Refusal {
        Refusal::BadRow(part)
    }
}

impl Part {
    // Where the part's rule stands among the rules, from 1 on.
    pub fn place(self) -> u32
        ensures { result ≡ place_of self }
    {
        match self {
            Part::Wide => 1,
            Part::Kp => 2,
            Part::S => 3,
            Part::H => 4,
            Part::W => 5,
            Part::B => 6,
            Part::P => 7,
            Part::Ldpc => 8,
            Part::L => 9,
            Part::Derived => 10,
        }
    }
}

impl Refusal {
    pub fn number(self) -> u32
        ensures { result ≡ number_of self }
    {
        match self {
            Refusal::DivisorZero => 1,
            Refusal::OutOfRange => 2,
            Refusal::BadTransmission => 3,
            Refusal::BadRow(_) => 4,
            Refusal::BadTables => 5,
            Refusal::Outside => 6,
            Refusal::SamePlace => 7,
            Refusal::WrongLength => 8,
            Refusal::BadCount => 9,
            Refusal::BadSize => 10,
            Refusal::NotBegun => 14,
        }
    }

    // The place of the part of a refused row, 1 to 10; 0 of every other refusal.
    pub fn part_of(self) -> u32
        ensures { result ≡ part_of self }
    {
        match self {
            Refusal::BadRow(part) => part.place(),
            _ => 0,
        }
    }

    // The number in the low byte and the part above it, as C is told.
    pub fn code(self) -> u32
        ensures { result ≡ code_of self }
    {
        self.number() + 256 * self.part_of()
    }
}
