// What the program writes.
ghost use Rattle.std.specs.Prelude.{◌≡◌, ◌≤◌, length};
ghost use Rattle.sheet.specs.Sheet.{name_of};
ghost use Rattle.readsheet.specs.Lines.{line_at, held_line, place_line, read_line, written_of};

use crate::Kept;
use ripemd::{WellFormed, Width};
use sheet::Misread;
use std::io;
use text::Text;

// A table, as the sheet's definition is one: 8 bits times 4 bytes times the words, in decimal, is no plainer.
fn name(w: Width) -> [u8; 3]
    ensures { result ≡ name_of w }
{
    match w {
        Width::W128 => *b"128",
        Width::W160 => *b"160",
        Width::W256 => *b"256",
        Width::W320 => *b"320",
    }
}

// What a sheet's state has taken.
fn held(s: WellFormed) -> Text<96>
    ensures { result ≡ held_line s.entry.state.now }
{
    let mut line = Text::new();
    line.bytes(b"width=");
    line.bytes(&name(s.state.width));
    line.bytes(b" bytes=");
    line.decimal(s.bytes_taken().0);
    line.bytes(b" blocks=");
    line.decimal(s.state.count.0);
    line.bytes(b" fill=");
    line.decimal(s.state.fill as u64);
    line.bytes(b"\n");
    line
}

// The line, counted from 1, of the byte at the place.
#[tactic(auto, unfolding(crate::specs::Lines::line_at, crate::specs::Lines::feeds_of))]
fn line_at(s: &[u8], place: usize) -> u64
    requires { place ≤ length s.now }
    ensures { result ≡ line_at place s.now }
{
    1 + s[..place].iter().filter(|b| **b == b'\n').count() as u64
}

// Where a text leaves every sheet.
fn misshaped(place: u64, line: u64) -> Text<96>
    ensures { result ≡ place_line place line }
{
    let mut text = Text::new();
    text.bytes(b"error=8 place=");
    text.decimal(place);
    text.bytes(b" line=");
    text.decimal(line);
    text.bytes(b"\n");
    text
}

// The line for what sheet::read gives.
#[tactic(auto, using(crate::proofs::Whole::read_steps), unfolding(crate::specs::Lines::line_for))]
fn line_of(sheet: &[u8]) -> Text<96>
    ensures { result ≡ read_line sheet.now }
{
    match sheet::read(sheet) {
        Ok(s) => held(WellFormed { state: &s }),
        Err(r) => match r.refusal {
            Misread::Shape(place) => misshaped(place as u64, line_at(sheet, place)),
            Misread::TooMany => Text::of(b"error=5 line=2\n"),
            Misread::WrongStart => Text::of(b"error=7 line=3\n"),
        },
    }
}

pub(crate) fn written(read: io::Result<Kept>) -> Text<96>
    ensures { result ≡ written_of read }
{
    match read {
        Ok(sheet) => line_of(sheet.as_bytes()),
        Err(_) => Text::of(b"error=read\n"),
    }
}
