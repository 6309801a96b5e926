// A row of the sample: WIDTH KIND ARGUMENT HEX.
use ripemd::{State, Width};
use std::io;
use text::Text;

pub fn named(rt: &impl Print, w: Width, kind: &[u8], name: &[u8], bytes: &[u8]) -> io::Result<()> {
    let mut row: Text<640> = Text::new();
    row.decimal(8 * front::digest_length(w) as u64);
    row.bytes(b" ");
    row.bytes(kind);
    row.bytes(b" ");
    row.bytes(name);
    row.bytes(b" ");
    row.hex(bytes);
    row.bytes(b"\n");
    rt.write_all(row.as_bytes())
}

fn decimal(number: usize) -> Text<20> {
    let mut name = Text::new();
    name.decimal(number as u64);
    name
}

// The same under a number.
pub fn bytes_at(
    rt: &impl Print,
    w: Width,
    kind: &[u8],
    number: usize,
    bytes: &[u8],
) -> io::Result<()> {
    let name = decimal(number);
    named(rt, w, kind, name.as_bytes(), bytes)
}

// The digest of a state, under a name.
pub fn digest(rt: &impl Print, w: Width, kind: &[u8], name: &[u8], s: State) -> io::Result<()> {
    let mut out = [0u8; 40];
    let _ = front::finish(s, &mut out);
    named(
        rt,
        w,
        kind,
        name,
        text::first(&out, front::digest_length(w)),
    )
}

// The same under a number.
pub fn digest_at(
    rt: &impl Print,
    w: Width,
    kind: &[u8],
    number: usize,
    s: State,
) -> io::Result<()> {
    let name = decimal(number);
    digest(rt, w, kind, name.as_bytes(), s)
}

// The record of a state, under a number.
pub fn record_at(rt: &impl Print, w: Width, number: usize, s: State) -> io::Result<()> {
    let mut out = [0u8; 48];
    let _ = front::export(s, &mut out);
    bytes_at(
        rt,
        w,
        b"record",
        number,
        text::first(&out, front::record_length(w)),
    )
}

// A number, and the place or the index beside it, a byte each, as the sample's rows have them.
fn pair((number, beside): (u32, usize)) -> [u8; 2] {
    [number.to_le_bytes()[0], beside.to_le_bytes()[0]]
}

// What reading gives a text.
pub fn readout(text: &[u8]) -> [u8; 2] {
    let refused = sheet::read(text).err();
    pair(refused.map_or((0, 0), |r| (r.refusal.number(), r.refusal.place())))
}

// What fault and feed give a state, under the name of what was done to it.
pub fn faults(rt: &impl Print, w: Width, name: &[u8], s: State) -> io::Result<()> {
    let told = pair(ripemd::fault(s).map_or((0, 0), |f| (f.number(), f.index())));
    named(rt, w, b"fault", name, &told)?;
    let refused = ripemd::feed(s, b"abc").err();
    let fed = pair(refused.map_or((0, 0), |r| (r.refusal.number(), r.refusal.index())));
    named(rt, w, b"feed", name, &fed)
}

// A number of import, under a name: the row has the scope's number.
pub fn number(rt: &impl Print, w: Width, name: &[u8], n: u32) -> io::Result<()> {
    named(rt, w, b"import", name, &n.to_le_bytes()[..1])
}
