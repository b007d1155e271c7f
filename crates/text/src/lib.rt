// Text for the programs: bytes, decimal numbers and the listing's lines, one behind the other in a lent buffer.
#![tactic(auto)]

ghost use Rattle.std.specs.Prelude.{◌≡◌, [], ◌∷◌};
ghost use Rattle.wire.specs.Bytes.{put_at};
ghost use Rattle.text.specs.Text.{decimal_of, offset_behind, put_each, offset_behind_each, frame_line, last_line};

use wire::answers;

// A line of the listing is shorter than this.
pub const LINE_ROOM: usize = 64;

// Some bytes at an offset; answers the offset behind them. Where they don't fit, nothing changes and the offset is answered.
pub fn word(out: &mut [u8], at: usize, bytes: &[u8]) -> usize
    ensures { (out.new ≡ put_at out.old at bytes.now) × (result ≡ offset_behind out.old at bytes.now) }
{
    wire::copy(out, at, bytes);
    match at.checked_add(bytes.len()) {
        Some(behind) if behind <= out.len() => behind,
        _ => at,
    }
}

// A number in decimal digits at an offset; answers as word does.
pub fn decimal(out: &mut [u8], at: usize, v: u64) -> usize
    ensures { (out.new ≡ put_at out.old at (decimal_of v)) × (result ≡ offset_behind out.old at (decimal_of v)) }
{
    let mut digits = [0u8; 20];
    // Stays a `while`: tried as a `for` over the places, which LLVM unrolls, and over as many as ilog10 says: the listing took a tenth
    // longer.
    let mut i: usize = 20;
    let mut rest = v;
    while 9 < rest {
        i -= 1;
        digits[i] = (48 + rest % 10) as u8;
        rest /= 10;
    }
    i -= 1;
    digits[i] = (48 + rest) as u8;
    word(out, at, &digits[i..20])
}

// A number and some bytes behind it; answers the offset behind both. What doesn't fit is left out.
// Output and offset stay two parameters: the promises of word, decimal, frame_line and last_line speak of both.
fn followed(out: &mut [u8], at: usize, v: u64, bytes: &[u8]) -> usize
    ensures { (out.new ≡ put_each out.old at (decimal_of v ∷ bytes.now ∷ [])) × (result ≡ offset_behind_each out.old at (decimal_of v ∷ bytes.now ∷ [])) }
{
    let behind = decimal(out, at, v);
    word(out, behind, bytes)
}

// A frame's line of the listing, with its type's number, piece by piece; answers the offset behind it. A piece that doesn't fit is left out.
pub fn frame_line(out: &mut [u8], at: usize, offset: u64, kind: u32, len: usize) -> usize
    ensures { (out.new ≡ put_each out.old at (frame_line offset kind len)) × (result ≡ offset_behind_each out.old at (frame_line offset kind len)) }
{
    let a = followed(out, at, offset, b" ");
    let b = followed(out, a, u64::from(kind), b" ");
    followed(out, b, len as u64, b"\n")
}

// The listing's last line, for a refusal's number, 0 where there is none, and how many bytes are missing, which stands behind 1
// alone; answers as frame_line does.
// The refusal stays a number: last_line of specs/Text, which this call promises, is over the number.
pub fn last_line(
    out: &mut [u8],
    at: usize,
    offset: u64,
    frames: u64,
    refused: u32,
    missing: usize,
) -> usize
    ensures { (out.new ≡ put_each out.old at (last_line offset frames refused missing)) × (result ≡ offset_behind_each out.old at (last_line offset frames refused missing)) }
{
    match refused {
        answers::PLAIN => {
            let a = followed(out, at, offset, b" end ");
            followed(out, a, frames, b"\n")
        }
        answers::TOO_SHORT => {
            let a = followed(out, at, offset, b" refused ");
            let b = followed(out, a, u64::from(refused), b" ");
            followed(out, b, missing as u64, b"\n")
        }
        _ => {
            let a = followed(out, at, offset, b" refused ");
            followed(out, a, u64::from(refused), b"\n")
        }
    }
}
