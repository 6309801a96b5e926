// All rounds of both lines, of four registers or of five, with the exchange after each or without.
#![tactic(auto)]

ghost use Rattle.std.specs.Prelude.{◌≡◌, ◌*◌, ◌<◌};
ghost use Rattle.tables.specs.Rule.{count_of};
ghost use Rattle.lines.specs.Places.{walk_of};
ghost use Rattle.rounds.specs.Rounds.{rounds_of};
ghost use Rattle.rounds.specs.Engine.{places_of, names_of, exchanged_after, size_if};

use lines::{Both, LineTables};
use tables::Size;

// What follows round n, counted from 0.
#[tactic(auto, unfolding(crate::specs::Engine::exchanged_after))]
fn exchange_after(exchanging: bool, n: usize, p: Both) -> Both
    requires { n < 5 }
    ensures { result ≡ exchanged_after exchanging n p }
{
    if exchanging {
        return lines::exchange(p, n);
    }
    p
}

// Round n and what follows it. Eight steps to a walk, so that LLVM opens each.
#[inline(always)]
fn round(z: Size, exchanging: bool, n: usize, p: Both, x: &[u32; 16], t: LineTables) -> Both
    requires in_range { n < count_of z }
    ensures { result ≡ exchanged_after exchanging n (walk_of z x.now (16 * n) 16 p) }
{
    let a = lines::walk(z, p, x, t, 16 * n, 16 * n + 8);
    let b = lines::walk(z, a, x, t, 16 * n + 8, 16 * n + 16);
    exchange_after(exchanging, n, b)
}

#[inline(always)]
pub fn size<const FIVE: bool>() -> Size
    ensures { result ≡ size_if FIVE }
{
    if FIVE { Size::Five } else { Size::Four }
}

// An instance for each size, with one caller: so LLVM knows the size in it, opens every loop, keeps one of the two steps, and what a step reads
// from a table is a literal.
pub fn rounds<const FIVE: bool>(exchanging: bool, p: Both, x: &[u32; 16], t: LineTables) -> Both
    ensures { result ≡ places_of (size_if FIVE) (rounds_of (size_if FIVE) exchanging x.now (count_of (size_if FIVE)) (names_of (size_if FIVE) p)) }
{
    let z = size::<FIVE>();
    let a = round(z, exchanging, 0, p, x, t);
    let b = round(z, exchanging, 1, a, x, t);
    let c = round(z, exchanging, 2, b, x, t);
    let d = round(z, exchanging, 3, c, x, t);
    match z {
        Size::Four => d,
        Size::Five => round(z, exchanging, 4, d, x, t),
    }
}
