// Lines of a key and a value.
use ripemd::{State, Width};
use std::io;
use text::Text;

fn line(rt: &impl Print, key: &[u8], value: &Text<80>) -> io::Result<()> {
    let mut line: Text<128> = Text::new();
    line.bytes(key);
    line.bytes(value.as_bytes());
    line.bytes(b"\n");
    rt.write_all(line.as_bytes())
}

// A line with a number.
pub fn number(rt: &impl Print, key: &[u8], x: u64) -> io::Result<()> {
    let mut value = Text::new();
    value.decimal(x);
    line(rt, key, &value)
}

pub fn digest(rt: &impl Print, w: Width, key: &[u8], s: State) -> io::Result<()> {
    let mut out = [0u8; 40];
    let _ = front::finish(s, &mut out);
    let mut value = Text::new();
    value.hex(text::first(&out, front::digest_length(w)));
    line(rt, key, &value)
}
