// 32-bit words: the cyclic shift, and a sum modulo 2^32 with one of the paper's five functions.
#![tactic(auto)]

pub mod bytes;

ghost use Rattle.std.specs.Prelude.{◌≡◌, ◌<◌};
ghost use Rattle.words.specs.Words.{add_of, rol_of, f_of};

pub fn rol(x: u32, s: u32) -> u32
    requires { (0 < s) × (s < 32) }
    ensures { result ≡ rol_of s x }
{
    x.rotate_left(s)
}

// t plus function n of b, c and d, counted from 0: a number, as the paper has it, and no enum, since the right line counts its rounds' from the last. The second chooses c or d by b, and the fourth b or c by d, in three operations each:
// docs/DECISIONS.md has why.
#[tactic(auto, unfolding(crate::specs::Words::f_of))]
pub fn add_f(n: usize, t: u32, b: u32, c: u32, d: u32) -> u32
    requires { n < 5 }
    ensures { result ≡ add_of t (f_of n b c d) }
{
    match n {
        0 => t.wrapping_add(b ^ c ^ d),
        1 => t.wrapping_add(d ^ (b & (c ^ d))),
        2 => t.wrapping_add((b | !c) ^ d),
        3 => t.wrapping_add(c ^ (d & (b ^ c))),
        _ => t.wrapping_add(b ^ (c | !d)),
    }
}
