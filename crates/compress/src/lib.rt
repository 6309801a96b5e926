// One block at any width, on ten words: the paper's compression function.
#![tactic(auto)]

ghost use Rattle.std.specs.Prelude.{◌≡◌, ◌/◌, ◌≤◌, true, false, length};
ghost use Rattle.words.specs.Words.{same_of};
ghost use Rattle.words.specs.Bytes.{words_of};
ghost use Rattle.tables.specs.Rule.{Constants};
ghost use Rattle.tables.specs.declared.Line.TheVariants.{Left, Right};
ghost use Rattle.rounds.specs.Engine.{places_of, names_of, size_if};
ghost use Rattle.compress.specs.Engine.{width_from};
ghost use Rattle.compress.specs.Block.{used_of, size_of, initial_of, start_of, exchanges_of, combine_of, compress_of, blocks_of};

use lines::{Both, LineTables};
use tables::{Line, Size};

// In the order of their numbers in the C face's image, so that it takes no table to read one.
#[derive(Clone, Copy, PartialEq, Eq, Debug)]
pub enum Width {
    W160,
    W320,
    W128,
    W256,
}

impl Width {
    // In the order in which they are tried and listed.
    pub const ALL: [Width; 4] = [Width::W128, Width::W160, Width::W256, Width::W320];
}

// How many of the ten words a width uses.
pub fn used(w: Width) -> usize
    ensures { result ≡ used_of w }
{
    match w {
        Width::W128 => 4,
        Width::W160 => 5,
        Width::W256 => 8,
        Width::W320 => 10,
    }
}

// How many registers its lines have, and rounds.
fn size(w: Width) -> Size
    ensures { result ≡ size_of w }
{
    match w {
        Width::W128 => Size::Four,
        Width::W160 => Size::Five,
        Width::W256 => Size::Four,
        Width::W320 => Size::Five,
    }
}

const H128: [u32; 10] = [
    0x6745_2301,
    0xefcd_ab89,
    0x98ba_dcfe,
    0x1032_5476,
    0,
    0,
    0,
    0,
    0,
    0,
];

const H160: [u32; 10] = [
    0x6745_2301,
    0xefcd_ab89,
    0x98ba_dcfe,
    0x1032_5476,
    0xc3d2_e1f0,
    0,
    0,
    0,
    0,
    0,
];

const H256: [u32; 10] = [
    0x6745_2301,
    0xefcd_ab89,
    0x98ba_dcfe,
    0x1032_5476,
    0x7654_3210,
    0xfedc_ba98,
    0x89ab_cdef,
    0x0123_4567,
    0,
    0,
];

const H320: [u32; 10] = [
    0x6745_2301,
    0xefcd_ab89,
    0x98ba_dcfe,
    0x1032_5476,
    0xc3d2_e1f0,
    0x7654_3210,
    0xfedc_ba98,
    0x89ab_cdef,
    0x0123_4567,
    0x3c2d_1e0f,
];

// The words from which a message starts.
pub fn initial(w: Width) -> [u32; 10]
    ensures { result ≡ initial_of w }
{
    match w {
        Width::W128 => H128,
        Width::W160 => H160,
        Width::W256 => H256,
        Width::W320 => H320,
    }
}

// Whether a message starts from the words h. Inlined, it would make a state's test too large for its callers: docs/DECISIONS.md has why.
#[inline(never)]
pub fn is_initial(w: Width, h: &[u32; 10]) -> bool
    ensures { result ≡ same_of h.now (initial_of w) }
{
    *h == initial(w)
}

// Whether the lines exchange a register after each round.
fn exchanges(w: Width) -> bool
    ensures { result ≡ exchanges_of w }
{
    match w {
        Width::W128 => false,
        Width::W160 => false,
        Width::W256 => true,
        Width::W320 => true,
    }
}

// Where the lines start: from the same words, or each from words of its own. Written out for each width: a function of the size and the first
// word's place takes a block 2 % longer (docs/DECISIONS.md).
fn start(z: Size, exchanging: bool, h: [u32; 10]) -> Both
    ensures { result ≡ places_of z (start_of (width_from z exchanging) h) }
{
    match z {
        Size::Four => if exchanging {
            Both {
                left: [h[0], h[1], h[2], h[3], 0],
                right: [h[4], h[5], h[6], h[7], 0],
            }
        } else {
            let v = [h[0], h[1], h[2], h[3], 0];
            Both { left: v, right: v }
        },
        Size::Five => if exchanging {
            Both {
                left: [h[0], h[1], h[2], h[3], h[4]],
                right: [h[5], h[6], h[7], h[8], h[9]],
            }
        } else {
            let v = [h[0], h[1], h[2], h[3], h[4]];
            Both { left: v, right: v }
        },
    }
}

// The new words of lines that started from the same, all from the old h: word 0 is made of the old h1, as the paper's T is.
fn combine_crossed(z: Size, h: [u32; 10], p: Both) -> [u32; 10]
    ensures { result ≡ combine_of (width_from z false) h (names_of z p) }
{
    let n = tables::count(z);
    let l = p.left;
    let r = p.right;
    let mut new = [0u32; 10];
    for i in 0..n {
        new[i] = h[(i + 1) % n]
            .wrapping_add(l[(i + 2) % n])
            .wrapping_add(r[(i + 3) % n]);
    }
    new
}

// Each line is added to the words that it started from.
fn combine_own(z: Size, h: [u32; 10], p: Both) -> [u32; 10]
    ensures { result ≡ combine_of (width_from z true) h (names_of z p) }
{
    let n = tables::count(z);
    let l = p.left;
    let r = p.right;
    let mut new = [0u32; 10];
    for i in 0..n {
        new[i] = h[i].wrapping_add(l[i]);
        new[n + i] = h[n + i].wrapping_add(r[i]);
    }
    new
}

// The words after one block, from the words before it and those of the block.
fn all_rounds<const FIVE: bool>(
    exchanging: bool,
    h: [u32; 10],
    x: &[u32; 16],
    t: LineTables,
) -> [u32; 10]
    ensures { result ≡ compress_of (width_from (size_if FIVE) exchanging) h x.now }
{
    let z = rounds::size::<FIVE>();
    let p = start(z, exchanging, h);
    let q = rounds::rounds::<FIVE>(exchanging, p, x, t);
    if exchanging {
        combine_own(z, h, q)
    } else {
        combine_crossed(z, h, q)
    }
}

// h after one block. The constants are lent and the function has two callers, so that LLVM does not see them here. Each arm has an instance of
// its own, so that LLVM parts the sizes once.
fn one_block(w: Width, h: &mut [u32; 10], block: &[u8], k: &[u32; 5], k2: &[u32; 5])
    requires block_length { length block.now ≡ 64 }
    requires left_constants { Constants Left k.now }
    requires right_constants { Constants Right k2.now }
    ensures { h.new ≡ compress_of w h.old (words_of 16 block.now) }
{
    let x = words::bytes::get_words::<16>(block, 16);
    let r = tables::order::table(Line::Left);
    let s = tables::shift::table(Line::Left);
    let r2 = tables::order::table(Line::Right);
    let s2 = tables::shift::table(Line::Right);
    let t = LineTables {
        r: &r,
        s: &s,
        k: k,
        r2: &r2,
        s2: &s2,
        k2: k2,
    };
    let exchanging = exchanges(w);
    *h = match size(w) {
        Size::Four => all_rounds::<false>(exchanging, *h, &x, t),
        Size::Five => all_rounds::<true>(exchanging, *h, &x, t),
    };
}

// One block of 64 bytes: h is the words before it, and then after it. Words that the width doesn't use come out zero.
pub fn compress(w: Width, h: &mut [u32; 10], block: &[u8])
    requires { length block.now ≡ 64 }
    ensures { h.new ≡ compress_of w h.old (words_of 16 block.now) }
{
    let k = tables::constants(Line::Left);
    let k2 = tables::constants(Line::Right);
    one_block(w, h, block, &k, &k2);
}

// The blocks of s; the bytes behind the last whole one are left.
pub fn compress_blocks(w: Width, h: &mut [u32; 10], s: &[u8])
    ensures { h.new ≡ blocks_of w h.old s.now (length s.now / 64) }
{
    let k = tables::constants(Line::Left);
    let k2 = tables::constants(Line::Right);
    for block in s.chunks_exact(64) {
        one_block(w, h, block, &k, &k2);
    }
}
