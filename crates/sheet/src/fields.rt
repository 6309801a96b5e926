// The words and the tail of a sheet.
ghost use Rattle.std.specs.Prelude.{◌≡◌, ◌++◌, ◌-◌, ◌*◌, ◌≤◌, length, replicate};
ghost use Rattle.words.specs.Bytes.{words_of};
ghost use Rattle.ripemd.specs.Feed.{as_tail};
ghost use Rattle.shape.specs.Digits.{unhex_of};

// The n words of which s are the bytes in hex, and zeros behind them. The length of s tells n too, by a division that each clause would then have.
pub(crate) fn words(s: &[u8], n: usize) -> [u32; 10]
    requires { (n ≤ 10) × (length s.now ≡ 8 * n) }
    ensures { result ≡ words_of n (unhex_of s.now) ++ replicate (10 - n) 0 }
{
    let mut b = [0u8; 40];
    shape::digits::unhex(s, &mut b);
    words::bytes::get_words(&b, n)
}

// The tail bytes of which s is the hex form, and zeros behind them.
pub(crate) fn tail(s: &[u8]) -> [u8; 64]
    requires { length s.now ≤ 126 }
    ensures { result ≡ as_tail (unhex_of s.now) }
{
    let mut t = [0u8; 64];
    shape::digits::unhex(s, &mut t);
    t
}
