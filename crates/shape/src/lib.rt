// How far a text goes along a shape, part by part, and what the digits in it stand for.
#![tactic(auto)]

pub mod digits;

ghost use Rattle.std.specs.Prelude.{◌≡◌};
ghost use Rattle.shape.specs.Shape.{allows_of, along_of, run_of, numeral_of, length_if};

// The bytes that may stand at a place of a text: that byte alone; 1 to 9; 0 to 9; 0 to 9 and a to f.
#[derive(Clone, Copy, PartialEq, Eq, Debug)]
pub enum Class {
    Just(u8),
    Leading,
    Digit,
    Hex,
}

impl Class {
    #[tactic(auto, unfolding(crate::specs::Shape::allows_of))]
    fn allows(self, b: u8) -> bool
        ensures { result ≡ allows_of self b }
    {
        match self {
            Class::Just(a) => b == a,
            Class::Leading => (b'1'..=b'9').contains(&b),
            Class::Digit => (b'0'..=b'9').contains(&b),
            Class::Hex => (b'0'..=b'9').contains(&b) || (b'a'..=b'f').contains(&b),
        }
    }
}

// How many first bytes of s are those of text.
pub fn along(s: &[u8], text: &[u8]) -> usize
    ensures { result ≡ along_of text.now s.now }
{
    s.iter().zip(text).take_while(|(a, b)| a == b).count()
}

// How many first bytes of s are of a class, at most n. `along` but for the test of a byte: one function that takes the test is no shorter.
pub fn run(s: &[u8], n: usize, c: Class) -> usize
    ensures { result ≡ run_of c n s.now }
{
    s.iter().take(n).take_while(|b| c.allows(**b)).count()
}

// How long the number is that s starts with: 1 to 17 digits, without leading zeros.
#[tactic(auto, using(crate::proofs::Parts::run_in), unfolding(crate::specs::Shape::numeral_of))]
pub fn numeral(s: &[u8]) -> Option<usize>
    ensures { result ≡ length_if (numeral_of 16 s.now) }
{
    let (first, rest) = s.split_first()?;
    if *first == b'0' {
        return Some(1);
    }
    if !Class::Leading.allows(*first) {
        return None;
    }
    Some(1 + run(rest, 16, Class::Digit))
}
