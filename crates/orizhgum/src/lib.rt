// The C interface: the calls over the crates below, which `orizhgum_c` exports. Answer 0 is the plain one, 1 to 99 are the refusals.
#![tactic(auto)]

ghost use Rattle.std.specs.Prelude.{◌≡◌};
ghost use Rattle.frame.specs.Framing.{read, header_width, body_limit};
ghost use Rattle.orizhgum.specs.Framed.{frame_answer};

use wire::answers;

pub mod arrivals;
pub mod entry;
pub mod groups;
pub mod joined;
pub mod records;
pub mod requested;
pub mod streamed;
pub mod written;

// The frame that some bytes begin with: its type, the body's length and the length of the frame; zeros where it is refused, but for
// how many bytes are missing.
#[repr(C)]
#[derive(Clone, Copy)]
pub struct FrameAnswer {
    pub answer: u32,
    pub kind: u32,
    pub len: usize,
    pub total: usize,
    pub missing: usize,
}

pub fn orizhgum_frame(bytes: &[u8]) -> FrameAnswer
    ensures { result ≡ frame_answer (read header_width body_limit bytes.now) }
{
    match frame::read(bytes) {
        Ok(f) => FrameAnswer {
            answer: answers::PLAIN,
            kind: f.kind,
            len: f.len,
            total: f.total,
            missing: 0,
        },
        Err(why) => FrameAnswer {
            answer: u32::from(why),
            kind: 0,
            len: 0,
            total: 0,
            missing: why.missing(),
        },
    }
}
