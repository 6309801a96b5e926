// The program: reads standard input to its end and writes its digest at width 160, in the scope's three lines.
#![tactic(auto)]

mod output;

ghost use Rattle.std.specs.Prelude.{◌≡◌};
ghost use Rattle.rmd160.specs.declared.Failure.TheVariants.{Read, Length};
ghost use Rattle.rmd160.specs.Reading.{turn_of, Heard, Answered};

use ripemd::{Refusal, Refused, State, Width};
use std::io;
use std::io::Read;
use text::Text;

// Why there is no digest: a read failed, or the message is too long.
#[derive(Clone, Copy, Debug, PartialEq, Eq)]
pub enum Failure {
    Read,
    Length,
}

// Whatever the reason.
impl From<io::Error> for Failure {
    ghost from_gives = { λ _ f. f ≡ Read };

    fn from(_e: io::Error) -> Failure {
        Failure::Read
    }
}

// A fresh state stays well formed as it is fed, so that feed refuses nothing but the length.
impl From<Refused<Refusal>> for Failure {
    ghost from_gives = { λ _ f. f ≡ Length };

    fn from(_r: Refused<Refusal>) -> Failure {
        Failure::Length
    }
}

// What follows a read that answers got, with its buffer: the state that took the piece, none at the end of the input, or a failure.
#[tactic(auto, using(crate::proofs::Turns::steps))]
fn after_read(s: State, got: io::Result<usize>, buffer: &[u8]) -> Result<Option<State>, Failure>
    ensures { result ≡ turn_of s got buffer.now }
{
    let n = got?;
    let piece = text::first(buffer, n);
    if piece.is_empty() {
        return Ok(None);
    }
    Ok(Some(ripemd::feed(s, piece)?))
}

// It ends because each turn that goes on has taken a byte, and no state takes 2^61: so each program has its loop, and none is passed a closure.
#[tactic(auto, using(crate::proofs::Taken::steps))]
fn read_all<R: Read>(input: &mut R) -> Result<State, Failure>
    ensures { Heard (R.remaining input.old) (R.remaining input.new) result }
{
    let mut s = ripemd::fresh(Width::W160);
    let mut buffer = [0; 4096];
    loop {
        let got = input.read(&mut buffer);
        match after_read(s, got, &buffer)? {
            Some(next) => s = next,
            None => return Ok(s),
        }
    }
}

fn answer<R: Read>(input: &mut R) -> Text<96>
    ensures { Answered (R.remaining input.old) (R.remaining input.new) result }
{
    output::written(read_all(input))
}

fn main(rt: HostRuntime) -> io::Result<()> {
    let text = answer(&mut rt.stdin());
    rt.write_all(text.as_bytes())
}
