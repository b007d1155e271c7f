// The stream: cuts in, frames out, in the cut or in the lent buffer.
ghost use Rattle.std.specs.Prelude.{◌≡◌};
ghost use Rattle.frame.specs.Framing.{header_width, body_limit};
ghost use Rattle.streams.specs.Stream.{new_stream, pushed, buffer_left, ended};
ghost use Rattle.streams.specs.Paper.{means_pushed};
ghost use Rattle.orizhgum.specs.Streamed.{no_frame_told, stream_answer};

use streams::{Pushed, Says, Stream};
use wire::answers;

// Where a frame's bytes stand: at the start of the cut, or of the lent buffer. C interface: numbers, as C takes no enum.
const IN_CUT: u32 = 1;

const IN_BUFFER: u32 = 2;

// What a call finds, with the frame's type, the body's length and the length of the frame, zeros where there is none; how many bytes
// are missing, how many of the cut it took, and the next state.
#[repr(C)]
#[derive(Clone, Copy)]
pub struct StreamAnswer {
    pub answer: u32,
    pub stands: u32,
    pub kind: u32,
    pub len: usize,
    pub total: usize,
    pub missing: usize,
    pub took: usize,
    pub next: Stream,
}

// An answer without a frame.
fn no_frame(answer: u32, missing: usize, took: usize, next: Stream) -> StreamAnswer
    ensures { result ≡ no_frame_told answer missing took next }
{
    StreamAnswer {
        answer,
        stands: 0,
        kind: 0,
        len: 0,
        total: 0,
        missing,
        took,
        next,
    }
}

// A call's answer as a struct.
fn told(answer: Pushed) -> StreamAnswer
    ensures { result ≡ stream_answer (means_pushed answer) }
{
    let Pushed { says, took, next } = answer;
    match says {
        Says::InCut(f) => StreamAnswer {
            stands: IN_CUT,
            kind: f.kind,
            len: f.len,
            total: f.total,
            ..no_frame(answers::PLAIN, 0, took, next)
        },
        Says::InBuffer(f) => StreamAnswer {
            stands: IN_BUFFER,
            kind: f.kind,
            len: f.len,
            total: f.total,
            ..no_frame(answers::PLAIN, 0, took, next)
        },
        Says::More { missing } => no_frame(answers::MORE, missing, took, next),
        Says::End => no_frame(answers::END, 0, took, next),
        Says::Refused(why) => no_frame(u32::from(why), why.missing(), took, next),
        Says::Malformed => no_frame(answers::MALFORMED, 0, took, next),
    }
}

// A stream of which nothing has come.
pub fn orizhgum_stream_new() -> Stream
    ensures { result ≡ new_stream }
{
    Stream::new()
}

// A cut of the stream.
pub fn orizhgum_stream_push(stream: Stream, buffer: &mut [u8], cut: &[u8]) -> StreamAnswer
    ensures value { result ≡ stream_answer (pushed header_width body_limit stream buffer.old cut.now) }
    ensures buffer_after { buffer.new ≡ buffer_left header_width body_limit stream buffer.old cut.now }
{
    told(stream.push(buffer, cut))
}

// The stream has ended.
pub fn orizhgum_stream_end(stream: Stream, buffer: &[u8]) -> StreamAnswer
    ensures { result ≡ stream_answer (ended header_width body_limit stream buffer.now) }
{
    told(stream.end(buffer))
}
