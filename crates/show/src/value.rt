// Values as text: numbers with their decimals, times, characters and texts.
use std::fmt;
use std::fmt::{Display, Formatter, Write};

// A number with so many decimals.
#[derive(Clone, Copy)]
pub struct Decimal(pub i64, pub usize);

impl Display for Decimal {
    fn fmt<W: Write>(&self, f: &mut Formatter<W>) -> fmt::Result {
        let Decimal(z, n) = *self;
        if z < 0 {
            f.write_str("-")?;
        }
        let size = z.unsigned_abs();
        // By steps, and no `pow`, which asks that it fits. Of at most 18 decimals it does, and never is 0.
        let unit = (0..n).fold(1u64, |unit, _| unit.wrapping_mul(10)).max(1);
        write!(f, "{}.{:0n$}", size / unit, size % unit)
    }
}

// A time, whose digits are parted.
#[derive(Clone, Copy)]
pub struct Time(pub i64);

impl Display for Time {
    fn fmt<W: Write>(&self, f: &mut Formatter<W>) -> fmt::Result {
        let t = self.0.cast_unsigned();
        write!(
            f,
            "{:04}-{:02}-{:02} {:02}:{:02}:{:02}.{:03}",
            t / 10_000_000_000_000 % 10_000,
            t / 100_000_000_000 % 100,
            t / 1_000_000_000 % 100,
            t / 10_000_000 % 100,
            t / 100_000 % 100,
            t / 1_000 % 100,
            t % 1_000
        )
    }
}

// How many characters are laid before they are written, each of which takes four bytes at most.
const LAID: usize = 16;

// The hexadecimal digits.
const HEX: [u8; 16] = *b"0123456789ABCDEF";

// A character's code.
fn code(b: u8) -> [u8; 4] {
    [
        b'\\',
        b'x',
        HEX[usize::from(b / 16)],
        HEX[usize::from(b % 16)],
    ]
}

// A character behind those that are laid; one that is not printed, a quote and a backslash by its code. Characters are laid and written
// together: one by one, codes by `{:02X}`, texts of codes took twice as long.
fn lay(out: &mut [u8], at: usize, b: u8) -> usize {
    match b {
        b'"' | b'\\' => text::word(out, at, &code(b)),
        b' '..=b'~' => text::word(out, at, &[b]),
        _ => text::word(out, at, &code(b)),
    }
}

// Characters, laid and then written.
fn write_all<W: Write>(f: &mut Formatter<W>, characters: &[u8]) -> fmt::Result {
    let mut out = [0u8; 4 * LAID];
    let mut at: usize = 0;
    for b in characters {
        at = lay(&mut out, at, *b);
    }
    let laid = out.get(..at).unwrap_or_default();
    f.write_str(str::from_utf8(laid).unwrap_or_default())
}

// One character.
#[derive(Clone, Copy)]
pub struct Character(pub u8);

impl Display for Character {
    fn fmt<W: Write>(&self, f: &mut Formatter<W>) -> fmt::Result {
        write_all(f, &[self.0])
    }
}

// A text without the spaces on its right.
#[derive(Clone, Copy)]
pub struct Trimmed<'a>(pub &'a [u8]);

impl Display for Trimmed<'_> {
    fn fmt<W: Write>(&self, f: &mut Formatter<W>) -> fmt::Result {
        let n = self.0.iter().rposition(|b| *b != b' ').map_or(0, |i| i + 1);
        for part in self.0[..n].chunks(LAID) {
            write_all(f, part)?;
        }
        Ok(())
    }
}
