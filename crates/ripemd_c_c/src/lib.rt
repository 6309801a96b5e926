// The archive for C and Rust: each function that include/ripemd.h declares, under its name there, over the crate ripemd_c, whose promise it repeats.
// A function for each width and a number for each answer, as C has them.
#![tactic(auto)]

mod sheets;

ghost use Rattle.std.specs.Prelude.{◌≡◌, length};
ghost use Rattle.ripemd.specs.State.{fresh_of, fault_of, index_of};
ghost use Rattle.ripemd.specs.Feed.{feed_of};
ghost use Rattle.ripemd.specs.Finish.{finish_number, finish_bytes, one_shot_number, one_shot_bytes};
ghost use Rattle.ripemd.specs.Record.{export_number, export_bytes, import_of};
ghost use Rattle.compress.specs.declared.Width.TheVariants.{W128, W160, W256, W320};
ghost use Rattle.ripemd_c.specs.Image.{state_of, image_of, fed_image};

use compress::Width;

#[unsafe(no_mangle)]
pub extern "C" fn ripemd_fresh128(state: &mut [u8; 128])
    ensures { state.new ≡ image_of (fresh_of W128) }
{
    ripemd_c::ripemd_fresh(Width::W128, state);
}

#[unsafe(no_mangle)]
pub extern "C" fn ripemd_fresh160(state: &mut [u8; 128])
    ensures { state.new ≡ image_of (fresh_of W160) }
{
    ripemd_c::ripemd_fresh(Width::W160, state);
}

#[unsafe(no_mangle)]
pub extern "C" fn ripemd_fresh256(state: &mut [u8; 128])
    ensures { state.new ≡ image_of (fresh_of W256) }
{
    ripemd_c::ripemd_fresh(Width::W256, state);
}

#[unsafe(no_mangle)]
pub extern "C" fn ripemd_fresh320(state: &mut [u8; 128])
    ensures { state.new ≡ image_of (fresh_of W320) }
{
    ripemd_c::ripemd_fresh(Width::W320, state);
}

#[unsafe(no_mangle)]
pub extern "C" fn ripemd_reset(state: &mut [u8; 128])
    ensures { state.new ≡ image_of (fresh_of (state_of state.old).width) }
{
    ripemd_c::ripemd_reset(state);
}

#[unsafe(no_mangle)]
pub extern "C" fn ripemd_fault(state: &[u8; 128], index: &mut u64) -> u32
    ensures { (result ≡ fault_of (state_of state.now)) × (index.new ≡ index_of (state_of state.now) (fault_of (state_of state.now))) }
{
    ripemd_c::ripemd_fault(state, index)
}

#[unsafe(no_mangle)]
pub extern "C" fn ripemd_feed(state: &mut [u8; 128], piece: &[u8]) -> u32
    ensures { (result ≡ (feed_of (state_of state.old) piece.now).number) × (state.new ≡ fed_image state.old piece.now) }
{
    ripemd_c::ripemd_feed(state, piece)
}

#[unsafe(no_mangle)]
pub extern "C" fn ripemd_finish(state: &[u8; 128], out: &mut [u8]) -> u32
    ensures { (result ≡ finish_number (state_of state.now) (length out.old)) × (out.new ≡ finish_bytes (state_of state.now) out.old) }
{
    ripemd_c::ripemd_finish(state, out)
}

#[unsafe(no_mangle)]
pub extern "C" fn ripemd_export(state: &[u8; 128], out: &mut [u8]) -> u32
    ensures { (result ≡ export_number (state_of state.now) (length out.old)) × (out.new ≡ export_bytes (state_of state.now) out.old) }
{
    ripemd_c::ripemd_export(state, out)
}

#[unsafe(no_mangle)]
pub extern "C" fn ripemd_import128(state: &mut [u8; 128], bytes: &[u8]) -> u32
    ensures { (result ≡ (import_of W128 bytes.now).number) × (state.new ≡ image_of (import_of W128 bytes.now).state) }
{
    ripemd_c::ripemd_import(Width::W128, state, bytes)
}

#[unsafe(no_mangle)]
pub extern "C" fn ripemd_import160(state: &mut [u8; 128], bytes: &[u8]) -> u32
    ensures { (result ≡ (import_of W160 bytes.now).number) × (state.new ≡ image_of (import_of W160 bytes.now).state) }
{
    ripemd_c::ripemd_import(Width::W160, state, bytes)
}

#[unsafe(no_mangle)]
pub extern "C" fn ripemd_import256(state: &mut [u8; 128], bytes: &[u8]) -> u32
    ensures { (result ≡ (import_of W256 bytes.now).number) × (state.new ≡ image_of (import_of W256 bytes.now).state) }
{
    ripemd_c::ripemd_import(Width::W256, state, bytes)
}

#[unsafe(no_mangle)]
pub extern "C" fn ripemd_import320(state: &mut [u8; 128], bytes: &[u8]) -> u32
    ensures { (result ≡ (import_of W320 bytes.now).number) × (state.new ≡ image_of (import_of W320 bytes.now).state) }
{
    ripemd_c::ripemd_import(Width::W320, state, bytes)
}

#[unsafe(no_mangle)]
pub extern "C" fn ripemd_one_shot128(message: &[u8], out: &mut [u8]) -> u32
    ensures { (result ≡ one_shot_number W128 (length message.now) (length out.old)) × (out.new ≡ one_shot_bytes W128 message.now out.old) }
{
    ripemd_c::ripemd_one_shot(Width::W128, message, out)
}

#[unsafe(no_mangle)]
pub extern "C" fn ripemd_one_shot160(message: &[u8], out: &mut [u8]) -> u32
    ensures { (result ≡ one_shot_number W160 (length message.now) (length out.old)) × (out.new ≡ one_shot_bytes W160 message.now out.old) }
{
    ripemd_c::ripemd_one_shot(Width::W160, message, out)
}

#[unsafe(no_mangle)]
pub extern "C" fn ripemd_one_shot256(message: &[u8], out: &mut [u8]) -> u32
    ensures { (result ≡ one_shot_number W256 (length message.now) (length out.old)) × (out.new ≡ one_shot_bytes W256 message.now out.old) }
{
    ripemd_c::ripemd_one_shot(Width::W256, message, out)
}

#[unsafe(no_mangle)]
pub extern "C" fn ripemd_one_shot320(message: &[u8], out: &mut [u8]) -> u32
    ensures { (result ≡ one_shot_number W320 (length message.now) (length out.old)) × (out.new ≡ one_shot_bytes W320 message.now out.old) }
{
    ripemd_c::ripemd_one_shot(Width::W320, message, out)
}
