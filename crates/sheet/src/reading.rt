// Reading a sheet.
ghost use Rattle.std.specs.Prelude.{◌≡◌, ◌<◌, length};
ghost use Rattle.shape.specs.Shape.{reach};
ghost use Rattle.sheet.specs.Reading.{read_of, held, Plain, state_at, shape_of};
ghost use Rattle.sheet.specs.Answers.{read_told};
ghost use Rattle.ripemd.specs.State.{fresh_of};
ghost use Rattle.compress.specs.declared.Width.TheVariants.{W160};

use crate::{Misread, fields, reaching};
use ripemd::{BlockCount, Fault, Refused, State, Width};
use shape::Class;

// The state in a sheet of the width.
#[tactic(auto, using(crate::proofs::Apart::state_steps))]
fn state_at(s: &[u8], w: Width) -> State
    requires { length s.now < reach (shape_of w) s.now }
    ensures { result ≡ state_at w s.now }
{
    let used = compress::used(w);
    let digits = &s[17..];
    let d = shape::numeral(digits).unwrap();
    let from = 17 + d + 7;
    let to = from + 8 * used;
    let rest = &s[to + 6..];
    let n = shape::run(rest, 126, Class::Hex);
    State {
        width: w,
        words: fields::words(&s[from..to], used),
        count: BlockCount(shape::digits::value(&digits[..d])),
        fill: n / 2,
        tail: fields::tail(&rest[..n]),
    }
}

// A refusal hands back a fresh 160.
fn refused(refusal: Misread) -> Refused<Misread>
    ensures { (result.refusal ≡ refusal) × (result.state ≡ fresh_of W160) }
{
    Refused {
        refusal,
        state: ripemd::fresh(Width::W160),
    }
}

// What a sheet that holds s gives. Its fill, tail and spare words are right, so that a fault is of the count or of the start.
#[tactic(auto, using(crate::proofs::Answers::held_steps))]
fn held(s: State) -> Result<State, Refused<Misread>>
    requires { Plain s }
    ensures { read_told result ≡ held s }
{
    let Some(fault) = ripemd::fault(s) else {
        return Ok(s);
    };
    match fault {
        Fault::Count => Err(refused(Misread::TooMany)),
        _ => Err(refused(Misread::WrongStart)),
    }
}

// The state of which the text is the sheet.
#[tactic(auto, using(crate::proofs::Answers::read_steps))]
pub fn read(sheet: &[u8]) -> Result<State, Refused<Misread>>
    ensures { read_told result ≡ read_of sheet.now }
{
    let f = reaching::farthest(sheet);
    if f.place <= sheet.len() {
        return Err(refused(Misread::Shape(f.place)));
    }
    held(state_at(sheet, f.width))
}
