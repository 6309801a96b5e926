// Feeding a state where it lies, as `&mut self` does in the Rust. It is the by-value feed, and is proved to match it.
#![tactic(auto)]

ghost use Rattle.std.specs.Prelude.{◌≡◌};
ghost use Rattle.ripemd.specs.Feed.{feed_of, answered};
ghost use Rattle.ripemd.specs.Answers.{told, fed};

use ripemd::{Refusal, Refused, State};

// The state is changed where it lies; a refused piece leaves it as it was.
pub fn feed_lent(s: &mut State, piece: &[u8]) -> Result<(), Refusal>
    ensures { (told result ≡ answered (feed_of s.old piece.now)) × (s.new ≡ (feed_of s.old piece.now).state) }
{
    match ripemd::feed(*s, piece) {
        Ok(t) => {
            *s = t;
            Ok(())
        }
        Err(r) => {
            *s = r.state;
            Err(r.refusal)
        }
    }
}

// A state of one's own is lent: for callers that have no reference to a state, so that their proofs walk none.
pub fn feed_own(s: State, piece: &[u8]) -> Result<State, Refused<Refusal>>
    ensures { fed result ≡ feed_of s piece.now }
{
    let mut t = s;
    match feed_lent(&mut t, piece) {
        Ok(()) => Ok(t),
        Err(refusal) => Err(Refused { refusal, state: t }),
    }
}
