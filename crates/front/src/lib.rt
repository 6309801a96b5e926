// The digest, the record and the sheet of a state of any width, in the first bytes of a buffer with room for the largest: for programs that go
// over the widths.
#![tactic(auto)]

ghost use Rattle.std.specs.Prelude.{◌≡◌, ◌≤◌, length, take};
ghost use Rattle.ripemd.specs.State.{answer_of};
ghost use Rattle.ripemd.specs.Answers.{told};
ghost use Rattle.ripemd.specs.Digest.{digest_length};
ghost use Rattle.ripemd.specs.Finish.{finish_number, finish_bytes};
ghost use Rattle.ripemd.specs.Record.{record_length, export_number, export_bytes};
ghost use Rattle.sheet.specs.Sheet.{length_of, write_number, write_bytes};
ghost use Rattle.front.specs.Front.{at_front};

use ripemd::{Refusal, State, Width};

pub fn digest_length(w: Width) -> usize
    ensures { (result ≡ digest_length w) × (result ≤ 40) }
{
    4 * compress::used(w)
}

pub fn record_length(w: Width) -> usize
    ensures { (result ≡ record_length w) × (result ≤ 48) }
{
    4 * compress::used(w) + 8
}

// A buffer without room is lent whole, so that the library refuses it. Three calls of two lines: one that takes the call as a closure is no shorter.
pub fn finish(s: State, out: &mut [u8]) -> Result<(), Refusal>
    ensures { (told result ≡ answer_of s (finish_number s (length (take (digest_length s.width) out.old)))) × (out.new ≡ at_front (digest_length s.width) (finish_bytes s) out.old) }
{
    let n = digest_length(s.width).min(out.len());
    ripemd::finish(s, &mut out[..n])
}

pub fn export(s: State, out: &mut [u8]) -> Result<(), Refusal>
    ensures { (told result ≡ answer_of s (export_number s (length (take (record_length s.width) out.old)))) × (out.new ≡ at_front (record_length s.width) (export_bytes s) out.old) }
{
    let n = record_length(s.width).min(out.len());
    ripemd::export(s, &mut out[..n])
}

pub fn write(s: State, out: &mut [u8]) -> Result<(), Refusal>
    ensures { (told result ≡ answer_of s (write_number s (length (take (length_of s) out.old)))) × (out.new ≡ at_front (length_of s) (write_bytes s) out.old) }
{
    let n = sheet::sheet_length(s).min(out.len());
    sheet::write(s, &mut out[..n])
}
