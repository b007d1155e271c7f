// A stream that comes in cuts: one frame at a time, and an unfinished frame kept in a lent buffer.
#![tactic(auto)]

ghost use Rattle.std.specs.Prelude.{◌≡◌};
ghost use Rattle.frame.specs.Framing.{header_width, body_limit};
ghost use Rattle.streams.specs.Stream.{new_stream, pushed, buffer_left, ended};
ghost use Rattle.streams.specs.Paper.{means_pushed};

use crate::cut::{begin, behind};
use frame::{Frame, Refusal};

mod cut;
mod keep;
mod state;

// How many bytes of an unfinished frame the lent buffer begins with, and how the stream stands: it goes on, it has ended, or it
// stopped at a refusal, whose number the mark is. The mark stays a number: a struct of the C interface.
#[repr(C)]
#[derive(Clone, Copy)]
pub struct Stream {
    pub held: usize,
    pub mark: u32,
}

// What a call finds. One enum and no Result: the next state goes with each of the six, so that no caller hands a refusal on by `?`.
#[derive(Clone, Copy)]
pub enum Says {
    // A frame, with which the cut begins.
    InCut(Frame),
    // A frame, with which the lent buffer begins.
    InBuffer(Frame),
    // No frame yet, and how many bytes are missing.
    More { missing: usize },
    End,
    Refused(Refusal),
    // A state that no calls lead to.
    Malformed,
}

// What a call finds, how many bytes of the cut it took, and the next state.
#[derive(Clone, Copy)]
pub struct Pushed {
    pub says: Says,
    pub took: usize,
    pub next: Stream,
}

impl Stream {
    // The marks of a stream that goes on, and of one that has ended.
    pub const GOING: u32 = 0;

    pub const ENDED: u32 = 1;

    // A stream of which nothing has come.
    pub fn new() -> Stream
        ensures { result ≡ new_stream }
    {
        Stream {
            held: 0,
            mark: Stream::GOING,
        }
    }

    // A cut of the stream: the next frame, or what else is found.
    pub fn push(self, buffer: &mut [u8], cut: &[u8]) -> Pushed
        ensures result_value { means_pushed result ≡ pushed header_width body_limit self buffer.old cut.now }
        ensures buffer_after { buffer.new ≡ buffer_left header_width body_limit self buffer.old cut.now }
    {
        // What comes most often is tested first.
        if (self.mark == Stream::GOING) & (self.held == 0) & (Frame::LIMIT <= buffer.len()) {
            return begin(buffer, cut);
        }
        match self.lacks(buffer) {
            Ok(missing) => behind(buffer, self.held, missing, cut),
            Err(says) => self.stay(says),
        }
    }

    // The stream has ended.
    pub fn end(self, buffer: &[u8]) -> Pushed
        ensures { means_pushed result ≡ ended header_width body_limit self buffer.now }
    {
        match self.lacks(buffer) {
            Ok(missing) => Stream {
                mark: Stream::ENDED,
                ..self
            }
            .stay(self.at_end(missing)),
            Err(says) => self.stay(says),
        }
    }
}
