// Writing a sheet.
ghost use Rattle.std.specs.Prelude.{◌≡◌, length};
ghost use Rattle.ripemd.specs.State.{answer_of};
ghost use Rattle.ripemd.specs.Answers.{told};
ghost use Rattle.sheet.specs.Sheet.{sheet_of, length_of, write_number, write_bytes};

use crate::reaching;
use ripemd::{Refusal, State, WellFormed};
use text::Text;

// The sheet of s. None is longer than 254 bytes.
#[tactic(auto, using(crate::proofs::Lines::fill_few))]
fn sheet_text(s: WellFormed) -> Text<254>
    ensures { result ≡ sheet_of s.entry.state.now }
{
    let s = *s.state;
    let used = compress::used(s.width);
    let mut words = [0; 40];
    words::bytes::put_words(&mut words, &s.words[..used]);
    let mut sheet = Text::new();
    sheet.bytes(&reaching::head(s.width));
    sheet.decimal(s.count.0);
    sheet.bytes(b"\nwords=");
    sheet.hex(&words[..4 * used]);
    sheet.bytes(b"\ntail=");
    sheet.hex(&s.tail[..s.fill]);
    sheet.bytes(b"\n");
    sheet
}

// How long the sheet of s is. Told from its parts, since whoever asks needs no text.
#[tactic(auto, using(crate::proofs::Lines::fill_few))]
fn length_of(s: WellFormed) -> usize
    ensures { result ≡ length (sheet_of s.entry.state.now) }
{
    let mut count: Text<20> = Text::new();
    count.decimal(s.state.count.0);
    17 + count.len() + 7 + 8 * compress::used(s.state.width) + 6 + 2 * s.state.fill + 1
}

// How long the sheet of s is; 0 where s isn't well formed, and no Result: this call was never refused.
pub fn sheet_length(s: State) -> usize
    ensures { result ≡ length_of s }
{
    match WellFormed::try_from(&s) {
        Ok(s) => length_of(s),
        Err(_) => 0,
    }
}

// The sheet of s, into an output of exactly its length.
#[tactic(auto, unfolding(crate::specs::Sheet::write_number, crate::specs::Sheet::write_bytes, ripemd::specs::State::index_of))]
pub fn write(s: State, out: &mut [u8]) -> Result<(), Refusal>
    ensures { (told result ≡ answer_of s (write_number s (length out.old))) × (out.new ≡ write_bytes s out.old) }
{
    let s = WellFormed::try_from(&s)?;
    if out.len() != length_of(s) {
        return Err(Refusal::OutputLength);
    }
    out.copy_from_slice(sheet_text(s).as_bytes());
    Ok(())
}
