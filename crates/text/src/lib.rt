// Text in fixed memory.
#![tactic(auto)]

ghost use Rattle.std.specs.Prelude.{◌≡◌, ◌-◌, ◌*◌, ◌≤◌, ◌<◌, ◌++◌, List, ℕ, [], length, take, drop, replicate};
ghost use Rattle.text.specs.Text.{decimal_of, hex_digit, hex_of, appended};
ghost use Rattle.text.specs.Room.{told, long_text};

use std::marker::Model;

/// A text of at most N bytes, in fixed memory.
#[derive(Clone, Copy)]
pub struct Text<const N: usize> {
    bytes: [u8; N],
    len: usize,
}

// Clauses see the bytes written so far.
impl<const N: usize> Model for Text<N> {
    ghost Value = { List ℕ };

    ghost view = { λ t. take t.len t.bytes };

    // Behind the text stand zeros, so that it tells its bytes and can be copied.
    ghost invariant = { λ t. (t.len ≤ N) × (length t.bytes ≡ N) × (drop t.len t.bytes ≡ replicate (N - t.len) 0) };

    ghost inverse = { λ l. record { bytes = l ++ replicate (N - length l) 0; len = length l } };

    ghost inverse_ok = { λ t h i. record { bytes = told N t.len t.bytes h.0 h.1 h.2 i; len = long_text N t.len t.bytes h.0 h.1 h.2 i } };
}

// What doesn't fit is not written, no part of it.
impl<const N: usize> Text<N> {
    pub fn new() -> Self
        ensures { result ≡ [] }
    {
        Text {
            bytes: [0; N],
            len: 0,
        }
    }

    /// A text that fits.
    pub fn of(text: &[u8]) -> Self
        requires { length text.now ≤ N }
        ensures { result ≡ text.now }
    {
        let mut t = Text::new();
        t.bytes(text);
        t
    }

    pub fn as_bytes(&self) -> &[u8]
        ensures { (result.now ≡ self.now) × (length result.now ≤ N) }
    {
        &self.bytes[..self.len]
    }

    pub fn len(&self) -> usize
        ensures { (result ≡ length self.now) × (result ≤ N) }
    {
        self.len
    }

    pub fn bytes(&mut self, text: &[u8])
        ensures { self.new ≡ appended N self.old text.now }
    {
        if N - self.len < text.len() {
            return;
        }
        let end = self.len + text.len();
        let room = &mut self.bytes[..];
        room[self.len..end].copy_from_slice(text);
        self.len = end;
    }

    pub fn decimal(&mut self, x: u64)
        ensures { self.new ≡ appended N self.old (decimal_of x) }
    {
        let mut room = [0; 20];
        let first = digits(&mut room, x);
        self.bytes(&room[first..]);
    }

    pub fn hex(&mut self, bytes: &[u8])
        ensures { self.new ≡ appended N self.old (hex_of bytes.now) }
    {
        // Against half of the room: twice the bytes might overflow.
        if (N - self.len) / 2 < bytes.len() {
            return;
        }
        let end = self.len + 2 * bytes.len();
        let room = &mut self.bytes[..];
        put_hex(&mut room[self.len..end], bytes);
        self.len = end;
    }
}

// The bytes in hex, into room for them. Not through the text: each digit would wait for the length that the one before it left.
fn put_hex(room: &mut [u8], bytes: &[u8])
    requires { length room.old ≡ 2 * length bytes.now }
    ensures { room.new ≡ hex_of bytes.now }
{
    for (i, b) in bytes.iter().enumerate() {
        room[2 * i] = hex_digit(b / 16);
        room[2 * i + 1] = hex_digit(b % 16);
    }
}

// The number in decimal, at the end of room; the place where it starts there. By `while`, since the digits say where to stop.
fn digits(room: &mut [u8; 20], x: u64) -> usize
    ensures { (result ≤ 20) × (drop result room.new ≡ decimal_of x) }
{
    let mut rest = x;
    let mut first = 19;
    while 10 <= rest {
        room[first] = b'0' + (rest % 10) as u8;
        rest /= 10;
        first -= 1;
    }
    room[first] = b'0' + rest as u8;
    first
}

// A hex digit, in lower case: a byte, where std's is a char.
#[tactic(auto, unfolding(crate::specs::Text::hex_digit))]
fn hex_digit(d: u8) -> u8
    requires { d < 16 }
    ensures { result ≡ hex_digit d }
{
    if d < 10 { b'0' + d } else { b'a' + (d - 10) }
}

// The first n bytes of s, or all of it where it has fewer: n may be more than s has.
pub fn first(s: &[u8], n: usize) -> &[u8]
    ensures { result.now ≡ take n s.now }
{
    if n <= s.len() {
        return &s[..n];
    }
    s
}
