// The record of a frame's bytes.
ghost use Rattle.std.specs.Prelude.{◌≡◌};
ghost use Rattle.record.specs.Record.{read_frame};
ghost use Rattle.record.specs.Paper.{means_frame_reading};
ghost use Rattle.record.specs.declared.framed.FrameRefusal.TheVariants as is;

use crate::{Reading, read};
use frame::Frame;
use layout::Refusal;

// A refusal of the frame, 1 to 3, or of its body, 4 or 5.
#[derive(Clone, Copy)]
pub enum FrameRefusal {
    Frame(frame::Refusal),
    Body(Refusal),
}

impl From<frame::Refusal> for FrameRefusal {
    ghost from_gives = { λ x e. e ≡ is.Frame x };

    fn from(why: frame::Refusal) -> FrameRefusal {
        FrameRefusal::Frame(why)
    }
}

impl From<Refusal> for FrameRefusal {
    ghost from_gives = { λ x e. e ≡ is.Body x };

    fn from(why: Refusal) -> FrameRefusal {
        FrameRefusal::Body(why)
    }
}

// The record of the frame that the bytes begin with: the body, behind the header, goes on to the record reader.
pub fn read_frame(s: &[u8]) -> Result<Reading, FrameRefusal>
    ensures { means_frame_reading result ≡ read_frame s.now }
{
    let f = frame::read(s)?;
    Ok(read(f.kind, &s[Frame::HEADER..Frame::HEADER + f.len])?)
}
