// What may be wrong with a state, and why a call is refused: the scope's numbers by name.
ghost use Rattle.std.specs.Prelude.{◌≡◌};
ghost use Rattle.ripemd.specs.declared.refusals.Refusal.TheVariants.{Faulty};
ghost use Rattle.ripemd.specs.Answers.{of_fault, of_refusal};

use crate::State;

#[derive(Clone, Copy, Debug, PartialEq, Eq)]
pub enum Fault {
    Fill,
    Count,
    // The first tail byte from the fill on that isn't zero, by its place in the tail.
    Tail(usize),
    // The first word that the width doesn't use and that isn't zero, by its place among the ten.
    Spare(usize),
    Start,
}

#[derive(Clone, Copy, Debug, PartialEq, Eq)]
pub enum Refusal {
    Faulty(Fault),
    TooLong,
    MidBlock,
    OutputLength,
    RecordLength,
    TooMany,
    WrongStart,
}

// Why a call is refused, and the state that it hands back.
#[derive(Clone, Copy)]
pub struct Refused<R> {
    pub refusal: R,
    pub state: State,
}

impl From<Fault> for Refusal {
    ghost from_gives = { λ f r. r ≡ Faulty f };

    fn from(f: Fault) -> Refusal {
        Refusal::Faulty(f)
    }
}

impl Fault {
    pub fn number(self) -> u32
        ensures { result ≡ (of_fault self).number }
    {
        match self {
            Fault::Fill => 60,
            Fault::Count => 61,
            Fault::Tail(_) => 62,
            Fault::Spare(_) => 63,
            Fault::Start => 64,
        }
    }

    // Where it is, for the two that have a place, and else 0.
    pub fn index(self) -> usize
        ensures { result ≡ (of_fault self).index }
    {
        match self {
            Fault::Tail(i) => i,
            Fault::Spare(i) => i,
            _ => 0,
        }
    }
}

impl Refusal {
    pub fn number(self) -> u32
        ensures { result ≡ (of_refusal self).number }
    {
        match self {
            Refusal::Faulty(f) => f.number(),
            Refusal::TooLong => 1,
            Refusal::MidBlock => 2,
            Refusal::OutputLength => 3,
            Refusal::RecordLength => 4,
            Refusal::TooMany => 5,
            Refusal::WrongStart => 7,
        }
    }

    // The fault's, and else 0.
    pub fn index(self) -> usize
        ensures { result ≡ (of_refusal self).index }
    {
        match self {
            Refusal::Faulty(f) => f.index(),
            _ => 0,
        }
    }
}
