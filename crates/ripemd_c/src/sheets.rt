// The calls of sheets.
ghost use Rattle.std.specs.Prelude.{◌≡◌, length};
ghost use Rattle.sheet.specs.Sheet.{length_of, write_number, write_bytes};
ghost use Rattle.sheet.specs.Reading.{read_of};
ghost use Rattle.ripemd_c.specs.Image.{state_of, image_of};

use crate::{images, number};

pub fn ripemd_sheet_length(state: &[u8; 128]) -> u64
    ensures { result ≡ length_of (state_of state.now) }
{
    sheet::sheet_length(images::state(state)) as u64
}

pub fn ripemd_write_sheet(state: &[u8; 128], out: &mut [u8]) -> u32
    ensures { (result ≡ write_number (state_of state.now) (length out.old)) × (out.new ≡ write_bytes (state_of state.now) out.old) }
{
    number(sheet::write(images::state(state), out))
}

pub fn ripemd_read_sheet(state: &mut [u8; 128], sheet: &[u8], place: &mut u64) -> u32
    ensures { (result ≡ (read_of sheet.now).number) × (state.new ≡ image_of (read_of sheet.now).state) × (place.new ≡ (read_of sheet.now).place) }
{
    match sheet::read(sheet) {
        Ok(s) => {
            *state = images::image(s);
            *place = 0;
            0
        }
        Err(r) => {
            *state = images::image(r.state);
            *place = r.refusal.place() as u64;
            r.refusal.number()
        }
    }
}
