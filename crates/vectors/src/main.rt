// Replays a sample of the Rust's answers, which crates/vectors/stdout holds. `compare/run --sample FILE` writes that file anew from the Rust,
// and compare/sample.rs says what each of its rows is.
#![tactic(auto)]

mod rows;

use ripemd::{BlockCount, State, Width};
use std::io;
use text::Text;

// The message of the sample.
fn message() -> [u8; 256] {
    std::array::from_fn(|i| ((i * 7 + 3) % 256) as u8)
}

fn fed(s: State, piece: &[u8]) -> State {
    ripemd::feed(s, piece).unwrap_or_else(|r| r.state)
}

// The state after a text, so many times.
fn repeated(w: Width, text: &[u8], times: usize) -> State {
    let mut s = ripemd::fresh(w);
    for _ in 0..times {
        s = fed(s, text);
    }
    s
}

// The published test vectors: a name, a text, and how many times it stands.
const VECTORS: [(&[u8], &[u8], usize); 9] = [
    (b"empty", b"", 1),
    (b"a", b"a", 1),
    (b"abc", b"abc", 1),
    (b"message-digest", b"message digest", 1),
    (b"a..z", b"abcdefghijklmnopqrstuvwxyz", 1),
    (
        b"abcdbcde..nopq",
        b"abcdbcdecdefdefgefghfghighijhijkijkljklmklmnlmnomnopnopq",
        1,
    ),
    (
        b"A..Za..z0..9",
        b"ABCDEFGHIJKLMNOPQRSTUVWXYZabcdefghijklmnopqrstuvwxyz0123456789",
        1,
    ),
    (b"8*1234567890", b"1234567890", 8),
    (
        b"1000000*a",
        b"aaaaaaaaaaaaaaaaaaaaaaaaaaaaaaaaaaaaaaaaaaaaaaaaaa",
        20000,
    ),
];

fn vectors(rt: &impl Print, w: Width) -> io::Result<()> {
    for (name, text, times) in VECTORS {
        rows::digest(rt, w, b"vector", name, repeated(w, text, times))?;
    }
    Ok(())
}

// The digest of the message's first n bytes, for n from 0 to 200.
fn lengths(rt: &impl Print, w: Width, m: &[u8]) -> io::Result<()> {
    for n in 0..201 {
        rows::digest_at(
            rt,
            w,
            b"length",
            n,
            fed(ripemd::fresh(w), text::first(m, n)),
        )?;
    }
    Ok(())
}

// The record after the message's first n bytes.
fn record(rt: &impl Print, w: Width, m: &[u8], n: usize) -> io::Result<()> {
    rows::record_at(rt, w, n, fed(ripemd::fresh(w), text::first(m, n)))
}

fn records(rt: &impl Print, w: Width, m: &[u8]) -> io::Result<()> {
    for n in [0, 64, 128, 192] {
        record(rt, w, m, n)?;
    }
    Ok(())
}

// The state that the record after the message's first block makes, where its count is the last that is accepted.
fn last_state(w: Width, m: &[u8]) -> State {
    let mut out = [0u8; 48];
    let _ = front::export(fed(ripemd::fresh(w), text::first(m, 64)), &mut out);
    let n = front::digest_length(w);
    out[n..n + 8].copy_from_slice(&0x007f_ffff_ffff_ffff_u64.to_le_bytes());
    ripemd::import(w, text::first(&out, front::record_length(w))).unwrap_or_else(|r| r.state)
}

// The digest after n bytes more from there.
fn last(rt: &impl Print, w: Width, m: &[u8], n: usize) -> io::Result<()> {
    rows::digest_at(rt, w, b"last", n, fed(last_state(w, m), text::first(m, n)))
}

fn lasts(rt: &impl Print, w: Width, m: &[u8]) -> io::Result<()> {
    for n in [0, 1, 55, 56, 63] {
        last(rt, w, m, n)?;
    }
    Ok(())
}

// The number of import for the record that is the front of out.
fn imported(rt: &impl Print, w: Width, name: &[u8], out: &[u8]) -> io::Result<()> {
    let answer = ripemd::import(w, text::first(out, front::record_length(w)));
    rows::number(rt, w, name, answer.err().map_or(0, |r| r.refusal.number()))
}

// For the record of a fresh state, and for one that was wiped to zeros.
fn imports(rt: &impl Print, w: Width) -> io::Result<()> {
    let mut out = [0u8; 48];
    imported(rt, w, b"wiped", &out)?;
    let _ = front::export(ripemd::fresh(w), &mut out);
    imported(rt, w, b"fresh", &out)
}

// The sheet after the message's first n bytes.
fn written(w: Width, m: &[u8], n: usize) -> Text<254> {
    let s = fed(ripemd::fresh(w), text::first(m, n));
    let mut out = [0u8; 254];
    let _ = front::write(s, &mut out);
    Text::of(text::first(&out, sheet::sheet_length(s)))
}

fn sheet(rt: &impl Print, w: Width, m: &[u8], n: usize) -> io::Result<()> {
    rows::bytes_at(rt, w, b"sheet", n, written(w, m, n).as_bytes())
}

// What reading gives the sheet after 127 bytes with X for its byte n.
fn damaged(rt: &impl Print, w: Width, m: &[u8], n: usize) -> io::Result<()> {
    let right = written(w, m, 127);
    let mut out: [u8; 254] = std::array::from_fn(|i| right.as_bytes().get(i).copied().unwrap_or(0));
    if let Some(b) = out.get_mut(n) {
        *b = b'X';
    }
    let r = rows::readout(text::first(&out, right.len()));
    rows::bytes_at(rt, w, b"read", n, &r)
}

// What it gives that sheet as it is, and without its last byte.
fn undamaged(rt: &impl Print, w: Width, m: &[u8]) -> io::Result<()> {
    let sheet = written(w, m, 127);
    let whole = rows::readout(sheet.as_bytes());
    rows::named(rt, w, b"read", b"whole", &whole)?;
    match sheet.as_bytes().split_last() {
        Some((_, front)) => {
            let short = rows::readout(front);
            rows::named(rt, w, b"read", b"short", &short)
        }
        None => Ok(()),
    }
}

fn sheets(rt: &impl Print, w: Width, m: &[u8]) -> io::Result<()> {
    for n in [0, 1, 63, 64, 127] {
        sheet(rt, w, m, n)?;
    }
    for n in [0, 8, 17, 20, 30, 70, 150] {
        damaged(rt, w, m, n)?;
    }
    undamaged(rt, w, m)
}

// The state after the message's first 73 bytes, as it is, and with each fault.
fn faults(rt: &impl Print, w: Width, m: &[u8]) -> io::Result<()> {
    let s = fed(ripemd::fresh(w), text::first(m, 73));
    let mut tail = s.tail;
    tail[40] = 1;
    tail[63] = 1;
    let mut words = s.words;
    words[5] = 1;
    words[8] = 1;
    let states: [(&[u8], State); 6] = [
        (b"none", s),
        (b"fill=64", State { fill: 64, ..s }),
        (
            b"count=2^55",
            State {
                count: BlockCount(1 << 55),
                ..s
            },
        ),
        (b"tail[40,63]=1", State { tail, ..s }),
        (b"words[5,8]=1", State { words, ..s }),
        (
            b"count=0",
            State {
                count: BlockCount(0),
                ..s
            },
        ),
    ];
    for (name, faulty) in states {
        rows::faults(rt, w, name, faulty)?;
    }
    Ok(())
}

fn sample(rt: &impl Print, w: Width) -> io::Result<()> {
    let m = message();
    vectors(rt, w)?;
    lengths(rt, w, &m)?;
    records(rt, w, &m)?;
    lasts(rt, w, &m)?;
    imports(rt, w)?;
    sheets(rt, w, &m)?;
    faults(rt, w, &m)
}

fn main(rt: HostRuntime) -> io::Result<()> {
    for w in Width::ALL {
        sample(&rt, w)?;
    }
    Ok(())
}
