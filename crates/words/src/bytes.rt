// Numbers and words as bytes, low byte first.
ghost use Rattle.std.specs.Prelude.{◌≡◌, ◌-◌, ◌*◌, ◌^◌, ◌<◌, ◌≤◌, ◌++◌, length, drop, replicate};
ghost use Rattle.words.specs.Bytes.{bytes_of, number_of, word_bytes, words_of};

// The number that the bytes s are. Not by from_le_bytes: the base stands in the code for the edit bytes_in_base_255.
pub fn get(s: &[u8]) -> u64
    requires { length s.now ≤ 8 }
    ensures { (result ≡ number_of s.now) × (result < 256 ^ length s.now) }
{
    let mut x: u64 = 0;
    for j in (0..s.len()).rev() {
        x = x * 256 + s[j] as u64;
    }
    x
}

// The first n words of s, and zeros behind them: n is how many are wanted, not how long s is.
pub fn get_words<const N: usize>(s: &[u8], n: usize) -> [u32; N]
    requires { (n ≤ N) × (4 * n ≤ length s.now) }
    ensures { result ≡ words_of n s.now ++ replicate (N - n) 0 }
{
    let mut x = [0u32; N];
    for i in 0..n {
        x[i] = get(&s[4 * i..4 * i + 4]) as u32;
    }
    x
}

// The low bytes of x, as many as out holds; the base stands in the code as in `get`, and the place for the edit high_byte_first.
pub fn put(out: &mut [u8], x: u64)
    ensures { out.new ≡ bytes_of (length out.old) x }
{
    let mut rest = x;
    for j in 0..out.len() {
        out[j] = (rest % 256) as u8;
        rest = rest / 256;
    }
}

// The words, into out from its start.
pub fn put_words(out: &mut [u8], words: &[u32])
    requires { 4 * length words.now ≤ length out.old }
    ensures { out.new ≡ word_bytes words.now ++ drop (4 * length words.now) out.old }
{
    for (i, word) in words.iter().enumerate() {
        put(&mut out[4 * i..4 * i + 4], *word as u64);
    }
}
