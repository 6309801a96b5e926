// What digits stand for.
ghost use Rattle.std.specs.Prelude.{◌≡◌, ◌++◌, ◌*◌, ◌/◌, ◌≤◌, ◌<◌, length, drop};
ghost use Rattle.shape.specs.Digits.{value_of, hex_value, unhex_of};

// The number of which s is the decimal form.
pub fn value(s: &[u8]) -> u64
    requires { length s.now ≤ 17 }
    ensures { result ≡ value_of 0 s.now }
{
    let mut x: u64 = 0;
    for b in s {
        x = x * 10 + u64::from(*b % 16);
    }
    x
}

// By `if`: the definition says what every byte stands for, and ranges would leave the others to say.
#[tactic(auto, unfolding(crate::specs::Digits::hex_value))]
fn hex_value(x: u8) -> u8
    ensures { (result ≡ hex_value x) × (result < 16) }
{
    if x < b'a' { x % 16 } else { (x % 16 + 9) % 16 }
}

// The bytes of which s is the hex form, into out from its start.
pub fn unhex(s: &[u8], out: &mut [u8])
    requires { length s.now ≤ 2 * length out.old }
    ensures { out.new ≡ unhex_of s.now ++ drop (length s.now / 2) out.old }
{
    for (j, pair) in s.chunks_exact(2).enumerate() {
        out[j] = hex_value(pair[0]) * 16 + hex_value(pair[1]);
    }
}
