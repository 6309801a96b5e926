// What the program writes.
ghost use Rattle.std.specs.Prelude.{◌≡◌, IfOk};
ghost use Rattle.compress.specs.declared.Width.TheVariants.{W160};
ghost use Rattle.ripemd.specs.State.{fault_of};
ghost use Rattle.rmd160.specs.Lines.{lines_of, written_of};

use crate::Failure;
use ripemd::{State, WellFormed};
use text::Text;

fn lines(s: WellFormed) -> Text<96>
    requires { s.state.now.width ≡ W160 }
    ensures { result ≡ lines_of s.entry.state.now }
{
    let mut digest = [0; 20];
    ripemd::finish(*s.state, &mut digest).unwrap();
    let mut lines = Text::new();
    lines.bytes(b"width=160\nbytes=");
    lines.decimal(s.bytes_taken().0);
    lines.bytes(b"\ndigest=");
    lines.hex(&digest);
    lines.bytes(b"\n");
    lines
}

pub(crate) fn written(read: Result<State, Failure>) -> Text<96>
    requires { IfOk read (λ s. (fault_of s ≡ 0) × (s.width ≡ W160)) }
    ensures { result ≡ written_of read }
{
    match read {
        Ok(s) => lines(WellFormed { state: &s }),
        Err(Failure::Read) => Text::of(b"error=read\n"),
        Err(Failure::Length) => Text::of(b"error=length\n"),
    }
}
