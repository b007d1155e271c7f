// The texts of a record or of a group.
ghost use Rattle.std.specs.Prelude.{◌≡◌, [], ◌++◌, ◌+◌, ◌≤◌, length, take, drop};
ghost use Rattle.wire.specs.Bytes.{part};
ghost use Rattle.record.specs.Asked.{filled, text_room};

use layout::TEXT_ROOM;

// A record's texts, one behind the other in the layout's order; unused bytes are zero.
// An array and its length: the project has no heap, and its memory is fixed.
#[derive(Clone, Copy)]
pub struct Texts {
    pub bytes: [u8; TEXT_ROOM],
    pub length: usize,
}

pub(crate) fn no_texts() -> Texts
    ensures { (result.bytes ≡ filled []) × (result.length ≡ 0) }
{
    Texts {
        bytes: [0u8; TEXT_ROOM],
        length: 0,
    }
}

// The n bytes from an offset on, or as many as are there. Two of the library's calls, as `show` has for itself: one of both would be a public call.
fn span(s: &[u8], at: usize, n: usize) -> &[u8]
    ensures { result.now ≡ take n (drop at s.now) }
{
    let rest = s.get(at..).unwrap_or(&[]);
    &rest[..n.min(rest.len())]
}

// The m bytes from a on, and the n bytes from b on behind them. Bytes that are not there count as none.
pub(crate) fn gather(s: &[u8], a: usize, m: usize, b: usize, n: usize) -> Texts
    requires { m + n ≤ text_room }
    ensures { (result.bytes ≡ filled (part a (a + m) s.now ++ part b (b + n) s.now)) × (result.length ≡ length (part a (a + m) s.now ++ part b (b + n) s.now)) }
{
    let mut bytes = [0u8; TEXT_ROOM];
    let x = span(s, a, m);
    let y = span(s, b, n);
    wire::copy(&mut bytes, 0, x);
    wire::copy(&mut bytes, x.len(), y);
    Texts {
        bytes,
        length: x.len() + y.len(),
    }
}
