// How many bytes the reader lacks, and how far it judges.
ghost use Rattle.std.specs.Prelude.{◌≡◌, ◌≤◌};
ghost use Rattle.frame.specs.Framing.{header_width, body_limit};
ghost use Rattle.frame.specs.Wanting.{wanting, reach};

use crate::Frame;
use wire::Number;

// What bytes lack, over the header's width and the body limit. Not by way of `read`, here and below: it adds up the frame's bytes,
// and a stream asks this of every cut.
fn wanting_at(s: &[u8], h: usize, limit: usize) -> usize
    requires { (4 ≤ h) × (h ≤ 64) × (limit ≤ 65536) }
    ensures { result ≡ wanting h limit s.now }
{
    if s.len() < h {
        return h - s.len();
    }
    let len = u32::at(s, h - Frame::LENGTH) as usize;
    if limit < len {
        return 0;
    }
    let end = h + len + Frame::CHECKSUM;
    if s.len() < end {
        return end - s.len();
    }
    0
}

// The number of bytes that would let the reader judge further; 0 where it does not answer 1.
pub fn wanting(s: &[u8]) -> usize
    ensures { result ≡ wanting header_width body_limit s.now }
{
    wanting_at(s, Frame::HEADER, Frame::BODY_LIMIT)
}

// How far they are judged, over the same. Its tests are those of what they lack; one struct of both answers is no plainer.
fn reach_at(s: &[u8], h: usize, limit: usize) -> usize
    requires { (4 ≤ h) × (h ≤ 64) × (limit ≤ 65536) }
    ensures { result ≡ reach h limit s.now }
{
    if s.len() < h {
        return s.len();
    }
    let len = u32::at(s, h - Frame::LENGTH) as usize;
    if limit < len {
        return h;
    }
    let end = h + len + Frame::CHECKSUM;
    if s.len() < end {
        return s.len();
    }
    end
}

// How far the reader judges: to the frame's end, to the header's where that gives 2, else all bytes.
pub fn reach(s: &[u8]) -> usize
    ensures { result ≡ reach header_width body_limit s.now }
{
    reach_at(s, Frame::HEADER, Frame::BODY_LIMIT)
}
