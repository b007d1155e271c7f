// The calls of `orizhgum` for C: each export has the parameters and the promise of the call of that name there, and passes its answer on.
// C links these names, with these parameters: a call of its own for each, over what the demands speak of.
#![tactic(auto)]

ghost use Rattle.std.specs.Prelude.{◌≡◌};
ghost use Rattle.frame.specs.Framing.{read, header_width, body_limit};
ghost use Rattle.orizhgum.specs.Framed.{frame_answer};

use orizhgum::FrameAnswer;

pub mod arrivals;
pub mod entry;
pub mod groups;
pub mod joined;
pub mod records;
pub mod requested;
pub mod streamed;
pub mod written;

#[unsafe(no_mangle)]
pub extern "C" fn orizhgum_frame(bytes: &[u8]) -> FrameAnswer
    ensures { result ≡ frame_answer (read header_width body_limit bytes.now) }
{
    orizhgum::orizhgum_frame(bytes)
}
