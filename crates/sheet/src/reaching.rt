// How far a text goes along the sheets of each width.
ghost use Rattle.std.specs.Prelude.{◌≡◌};
ghost use Rattle.shape.specs.Shape.{reach};
ghost use Rattle.sheet.specs.Reading.{end_shape, tail_shape, words_shape, head_of, shape_of, farther_of, farthest_of};

use crate::Far;
use ripemd::Width;
use shape::Class;

// How far s goes along the last line feed; one more where s is one.
#[tactic(auto, using(crate::proofs::Followed::end_steps))]
fn end_reach(s: &[u8]) -> usize
    ensures { result ≡ reach end_shape s.now }
{
    match s {
        [b'\n'] => 2,
        [b'\n', ..] => 1,
        _ => 0,
    }
}

// How far s goes along the tail's line; one more where s ends with it.
#[tactic(auto, using(crate::proofs::Followed::tail_steps))]
fn tail_reach(s: &[u8]) -> usize
    ensures { result ≡ reach tail_shape s.now }
{
    let key = shape::along(s, b"\ntail=");
    if key < 6 {
        return key;
    }
    let to = 6 + shape::run(&s[6..], 126, Class::Hex);
    if to % 2 != 0 {
        return to;
    }
    to + end_reach(&s[to..])
}

// How far s goes along the words' line, of n digits (n is the shape's and not the slice's), and the tail's; one more where s ends with it.
#[tactic(auto, using(crate::proofs::Followed::words_steps))]
fn words_reach(s: &[u8], n: usize) -> usize
    ensures { result ≡ reach (words_shape n) s.now }
{
    let key = shape::along(s, b"\nwords=");
    if key < 7 {
        return key;
    }
    let k = shape::run(&s[7..], n, Class::Hex);
    let to = 7 + k;
    if k < n {
        return to;
    }
    to + tail_reach(&s[to..])
}

#[tactic(auto, unfolding(crate::specs::Reading::head_of))]
pub(crate) fn head(w: Width) -> [u8; 17]
    ensures { result ≡ head_of w }
{
    match w {
        Width::W128 => *b"width=128\nblocks=",
        Width::W160 => *b"width=160\nblocks=",
        Width::W256 => *b"width=256\nblocks=",
        Width::W320 => *b"width=320\nblocks=",
    }
}

// How far s goes along the sheets of a width; one more where s is one.
#[tactic(auto, using(crate::proofs::Followed::sheet_steps))]
fn sheet_reach(s: &[u8], w: Width) -> usize
    ensures { result ≡ reach (shape_of w) s.now }
{
    let start = head(w);
    let key = shape::along(s, &start);
    if key < 17 {
        return key;
    }
    let Some(d) = shape::numeral(&s[17..]) else {
        return 17;
    };
    let to = 17 + d;
    to + words_reach(&s[to..], 8 * compress::used(w))
}

// The farther of f and the sheets of a further width.
#[tactic(auto, unfolding(crate::specs::Reading::farther_of))]
fn farther(s: &[u8], f: Far, w: Width) -> Far
    ensures { result ≡ farther_of s.now f w }
{
    let place = sheet_reach(s, w);
    if f.place < place {
        return Far { place, width: w };
    }
    f
}

// Of all widths, the one whose sheets s goes along farthest.
#[tactic(auto, unfolding(crate::specs::Reading::farthest_of))]
pub(crate) fn farthest(s: &[u8]) -> Far
    ensures { result ≡ farthest_of s.now }
{
    let none = Far {
        place: 0,
        width: Width::W160,
    };
    Width::ALL.iter().fold(none, |f, w| farther(s, f, *w))
}
