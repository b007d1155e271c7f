// Numbers as bytes, the highest first: read at an offset, and put at one.
ghost use Rattle.std.specs.Prelude.{◌≡◌, ◌<◌, ◌^◌, ℕ, refl};
ghost use Rattle.std.specs.Int.{w64};
ghost use Rattle.std.proofs.Common.{to_z, of_z};
ghost use Rattle.std.proofs.lemmas.Int.{of_z-to_z};
ghost use Rattle.wire.specs.Bytes.{be, be_at, digits, put_at};

use crate::put::copy;
use crate::sign::{signed, unsigned};

// A number of a fixed count of bytes.
pub trait Number: Copy {
    // how many bytes it has, the number of some bits, and the bits of a number
    ghost width: { ℕ };

    ghost of_bits: { ℕ → Self };

    ghost bits: { Self → ℕ };

    // The number at an offset; where fewer bytes are left, of those.
    fn at(s: &[u8], at: usize) -> Self
        ensures { result ≡ of_bits (be_at s.now at width) };

    // Its bytes at an offset of the output where they fit; where they don't, the output stays as it stood.
    fn put(self, out: &mut [u8], at: usize)
        ensures { out.new ≡ put_at out.old at (digits width (bits self)) };

    // what is read from its bytes has those bits
    ghost kept: { (n : ℕ) → n < 256 ^ width → bits (of_bits n) ≡ n };
}

// The bytes at an offset; where fewer are left, those behind zeros.
fn bytes<const N: usize>(s: &[u8], at: usize) -> [u8; N]
    ensures { be result ≡ be_at s.now at N }
{
    let rest = s.get(at..).unwrap_or(&[]);
    match rest.first_chunk::<N>() {
        Some(all) => *all,
        None => {
            let mut out = [0; N];
            let all = &mut out[..];
            all[N - rest.len()..].copy_from_slice(rest);
            out
        }
    }
}

// An impl for each type: the library's from_be_bytes and to_be_bytes are in no trait, and a macro may not write an impl. A signed
// number is read and put as its 64 bits, by way of `signed` and `unsigned`.
impl Number for u8 {
    ghost width = { 1 };

    ghost of_bits = { λ n. n };

    ghost bits = { λ x. x };

    ghost kept = { λ n h. refl };

    fn at(s: &[u8], at: usize) -> u8 {
        u8::from_be_bytes(bytes(s, at))
    }

    fn put(self, out: &mut [u8], at: usize) {
        copy(out, at, &u8::to_be_bytes(self));
    }
}

impl Number for u16 {
    ghost width = { 2 };

    ghost of_bits = { λ n. n };

    ghost bits = { λ x. x };

    ghost kept = { λ n h. refl };

    fn at(s: &[u8], at: usize) -> u16 {
        u16::from_be_bytes(bytes(s, at))
    }

    fn put(self, out: &mut [u8], at: usize) {
        copy(out, at, &u16::to_be_bytes(self));
    }
}

impl Number for u32 {
    ghost width = { 4 };

    ghost of_bits = { λ n. n };

    ghost bits = { λ x. x };

    ghost kept = { λ n h. refl };

    fn at(s: &[u8], at: usize) -> u32 {
        u32::from_be_bytes(bytes(s, at))
    }

    fn put(self, out: &mut [u8], at: usize) {
        copy(out, at, &u32::to_be_bytes(self));
    }
}

impl Number for u64 {
    ghost width = { 8 };

    ghost of_bits = { λ n. n };

    ghost bits = { λ x. x };

    ghost kept = { λ n h. refl };

    fn at(s: &[u8], at: usize) -> u64 {
        u64::from_be_bytes(bytes(s, at))
    }

    fn put(self, out: &mut [u8], at: usize) {
        copy(out, at, &u64::to_be_bytes(self));
    }
}

impl Number for i64 {
    ghost width = { 8 };

    ghost of_bits = { to_z w64 };

    ghost bits = { of_z w64 };

    ghost kept = { of_z-to_z w64 };

    fn at(s: &[u8], at: usize) -> i64 {
        signed(u64::at(s, at))
    }

    fn put(self, out: &mut [u8], at: usize) {
        unsigned(self).put(out, at);
    }
}
