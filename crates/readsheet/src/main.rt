// The program: reads a sheet on standard input and writes one line, what the sheet holds or where it is wrong.
#![tactic(auto)]

mod output;

ghost use Rattle.std.specs.Prelude.{◌≡◌};
ghost use Rattle.readsheet.specs.Reading.{turn_of, keep_of, Heard, Answered};

use std::io;
use std::io::Read;
use text::Text;

// The first bytes of the input. A sheet has at most 254, so that no later byte changes the answer.
pub type Kept = Text<256>;

// What follows a read that answers got, with its buffer: the piece is kept as far as there is room. Whether there was any, or the failure.
#[tactic(auto, unfolding(crate::specs::Reading::turn_of, crate::specs::Reading::keep_of))]
fn after_read(kept: &mut Kept, got: io::Result<usize>, buffer: &[u8]) -> io::Result<bool>
    ensures { (result ≡ turn_of got buffer.now) × (kept.new ≡ keep_of kept.old got buffer.now) }
{
    let n = got?;
    let piece = text::first(buffer, n);
    if piece.is_empty() {
        return Ok(false);
    }
    kept.bytes(text::first(piece, 256 - kept.len()));
    Ok(true)
}

// It ends because each turn that goes on has kept a byte, and there is room for 256.
fn read_all<R: Read>(input: &mut R) -> io::Result<Kept>
    ensures { Heard (R.remaining input.old) (R.remaining input.new) result }
{
    let mut kept: Kept = Text::new();
    let mut buffer = [0; 256];
    while kept.len() < 256 {
        let room = 256 - kept.len();
        let got = input.read(&mut buffer[..room]);
        if !after_read(&mut kept, got, &buffer)? {
            return Ok(kept);
        }
    }
    Ok(kept)
}

fn answer<R: Read>(input: &mut R) -> Text<96>
    ensures { Answered (R.remaining input.old) (R.remaining input.new) result }
{
    output::written(read_all(input))
}

fn main(rt: HostRuntime) -> io::Result<()> {
    let line = answer(&mut rt.stdin());
    rt.write_all(line.as_bytes())
}
