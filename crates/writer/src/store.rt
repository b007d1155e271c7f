// Type, length, groups and checksum round fields that stand in their place.
ghost use Rattle.std.specs.Prelude.{◌≡◌, ◌++◌, ◌+◌, ◌≤◌, length};
ghost use Rattle.wire.specs.Bytes.{part, splice};
ghost use Rattle.frame.specs.Framing.{header_width, sum_width, body_limit};
ghost use Rattle.writer.specs.Write.{frame_of};

use frame::Frame;
use wire::Number;

// The frame of a type, by the number that is stored, whose fields, of size bytes, stand behind the header's bytes.
pub(crate) fn seal(kind: u32, size: usize, groups: &[u8], out: &mut [u8])
    requires { (size + length groups.now ≤ body_limit) × (header_width + sum_width + (size + length groups.now) ≤ length out.old) }
    ensures { out.new ≡ splice out.old 0 (frame_of kind (part header_width (header_width + size) out.old ++ groups.now)) }
{
    let len = size + groups.len();
    kind.put(out, 0);
    (len as u32).put(out, Frame::LENGTH_AT);
    wire::copy(out, Frame::HEADER + size, groups);
    let end = Frame::HEADER + len;
    let sum = wire::checksum(&out[0..end]);
    sum.put(out, end);
}
