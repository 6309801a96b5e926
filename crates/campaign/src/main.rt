// The reason for all this, played through: a sixty-day log in odd pieces, hashed once straight through, and once over a sheet after each piece
// and an export and an import at every point where that is allowed, with refused calls in between. Both digests are the same.
#![tactic(auto)]

mod log;
mod report;

use ripemd::{State, Width};
use std::io;

// The whole log, straight through, and how many bytes it has.
fn straight(w: Width) -> (State, u64) {
    let mut s = ripemd::fresh(w);
    let mut total: u64 = 0;
    for i in 0..log::PIECES {
        let piece = log::piece(i);
        s = ripemd::feed(s, piece.as_bytes()).unwrap_or_else(|r| r.state);
        total += piece.len() as u64;
    }
    (s, total)
}

// Calls that are refused, and so count as not made: a digest, a record and a sheet into outputs of wrong lengths, a record cut short, a text
// that is no sheet, a damaged state.
fn refused(w: Width, s: State, piece: &[u8]) {
    let mut short = [0u8; 19];
    let _ = ripemd::finish(s, &mut short);
    let _ = ripemd::export(s, &mut short);
    let _ = ripemd::import(w, &short);
    let _ = sheet::write(s, &mut short);
    let _ = sheet::read(&short);
    let mut damaged = s;
    damaged.fill = 64;
    let _ = ripemd::feed(damaged, piece);
}

// The state imported from its own export, where the bytes so far are a multiple of 64.
fn resumed(w: Width, s: State) -> Option<State> {
    let mut record = [0u8; 48];
    front::export(s, &mut record).ok()?;
    Some(ripemd::import(w, text::first(&record, front::record_length(w))).unwrap_or_else(
        |r| r.state,
    ))
}

// The state read from its own sheet.
fn on_paper(s: State) -> State {
    let mut out = [0u8; 254];
    let _ = front::write(s, &mut out);
    sheet::read(text::first(&out, sheet::sheet_length(s))).unwrap_or_else(|r| r.state)
}

// One piece of the log through the lent feed, refused calls around it, and a sheet behind it.
fn step(w: Width, s: State, piece: &[u8]) -> State {
    refused(w, s, piece);
    let t = lent::feed_own(s, piece).unwrap_or_else(|r| r.state);
    refused(w, t, piece);
    on_paper(t)
}

// The whole log, with every restart that is allowed, and how many there were.
fn restarted(w: Width) -> (State, u64) {
    let mut s = ripemd::fresh(w);
    let mut restarts: u64 = 0;
    for i in 0..log::PIECES {
        s = step(w, s, log::piece(i).as_bytes());
        if let Some(t) = resumed(w, s) {
            s = t;
            restarts += 1;
        }
    }
    (s, restarts)
}

fn campaign(rt: &impl Print, w: Width) -> io::Result<()> {
    let (a, bytes) = straight(w);
    let (b, restarts) = restarted(w);
    report::number(rt, b"width=", 8 * front::digest_length(w) as u64)?;
    report::number(rt, b"bytes=", bytes)?;
    report::number(rt, b"restarts=", restarts)?;
    report::digest(rt, w, b"straight=", a)?;
    report::digest(rt, w, b"restarted=", b)
}

fn main(rt: HostRuntime) -> io::Result<()> {
    for w in Width::ALL {
        campaign(&rt, w)?;
    }
    Ok(())
}
