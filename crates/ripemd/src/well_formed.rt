// A state in which nothing is wrong: who holds one need not look again.
ghost use Rattle.std.specs.Prelude.{◌≡◌, length, MatchResult};
ghost use Rattle.ripemd.specs.State.{fault_of};

use crate::{ByteCount, Fault, State, states};

#[derive(Clone, Copy)]
pub struct WellFormed<'a> {
    pub state: &'a State,
    pub ghost sound: { fault_of state.now ≡ 0 },
    // Known of every state, and said here since it lies behind a reference.
    pub ghost ten: { length state.now.words ≡ 10 },
    pub ghost long: { length state.now.tail ≡ 64 },
}

impl<'a> TryFrom<&'a State> for WellFormed<'a> {
    ghost use Rattle.ripemd.specs.State.{answer_of};
    ghost use Rattle.ripemd.specs.Answers.{of_fault};

    type Error = Fault;

    ghost try_from_gives = { λ s r. MatchResult r (λ w. w.state.now ≡ s.now) (λ f. of_fault f ≡ answer_of s.now (fault_of s.now)) };

    fn try_from(s: &'a State) -> Result<WellFormed<'a>, Fault> {
        match states::fault(*s) {
            None => Ok(WellFormed { state: s }),
            Some(f) => Err(f),
        }
    }
}

impl<'a> WellFormed<'a> {
    ghost use Rattle.ripemd.specs.State.{taken_of};

    // Bytes taken so far: 64 for each block, and the fill.
    pub fn bytes_taken(self) -> ByteCount
        ensures { result.0 ≡ taken_of self.entry.state.now }
    {
        ByteCount(64 * self.state.count.0 + self.state.fill as u64)
    }
}
