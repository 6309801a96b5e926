// The sheet of a state: its text form, for paper. Written into a lent buffer, and read back.
#![tactic(auto)]

mod fields;
mod misread;
mod reaching;
pub mod reading;
pub mod writing;

pub use misread::Misread;
pub use reading::read;
use ripemd::Width;
pub use writing::{sheet_length, write};

// How far a text goes along the sheets of a width.
#[derive(Clone, Copy)]
struct Far {
    place: usize,
    width: Width,
}
