// A bench program: the frames of standard input, decoded. A line for each record, an indented line for each group and entry.
#![tactic(auto)]

ghost use Rattle.std.specs.Prelude.{IfOk};
ghost use Rattle.window.specs.Window.{Fits};

mod below;
mod line;
mod named;
mod value;

use frame::{Frame, Refusal};
use std::fmt::Write;
use std::io;
use std::io::Stdout;
use window::{Gathered, Program, Step};

// The window that slides over the input holds the longest frame several times, so that reads are few.
const WINDOW: usize = 4 * Frame::LIMIT;

// Lines are gathered and written together.
const GATHERED: usize = 65536;

// A piece of a line is shorter than this.
const MARGIN: usize = 1024;

// Where the program is: the lines that are gathered, offset and frames so far. A piece of a line always has room, so that no
// write of one fails.
#[derive(Drop)]
pub struct Showing {
    lines: Gathered<Stdout, GATHERED>,
    offset: u64,
    frames: u64,
}

impl Showing {
    // Makes room for a piece of a line: what is gathered is written where there is little.
    fn room(&mut self) -> io::Result<()> {
        self.lines.flush(MARGIN)
    }
}

impl Program for Showing {
    // Shows a frame. A refusal 1 waits for more bytes.
    fn step(&mut self, bytes: &[u8]) -> io::Result<Step> {
        match frame::read(bytes) {
            Ok(f) => {
                self.frame(f.kind, frame::body(bytes))?;
                self.offset = self.offset.wrapping_add(f.total as u64);
                self.frames = self.frames.wrapping_add(1);
                Ok(Step::Took(f.total))
            }
            Err(Refusal::TooShort { .. }) => Ok(Step::Waits),
            Err(_) => Ok(Step::Ends),
        }
    }

    // The last line, as the listing's: the refusal of the bytes that are left, if there are any.
    fn end(&mut self, left: &[u8]) -> io::Result<()> {
        let at = self.offset.cast_signed();
        let frames = self.frames.cast_signed();
        let refused = if left.is_empty() {
            None
        } else {
            frame::read(left).err()
        };
        let _ = match refused {
            None => writeln!(self.lines, "{at} end {frames}"),
            Some(why) if why.missing() == 0 => {
                writeln!(self.lines, "{at} refused {}", u32::from(why))
            }
            Some(why) => writeln!(
                self.lines,
                "{at} refused {} {}",
                u32::from(why),
                why.missing()
            ),
        };
        self.lines.flush_all()
    }

    fn flush(&mut self) -> io::Result<()> {
        self.lines.flush_all()
    }
}

fn main(rt: HostRuntime) {
    let mut bytes = [0u8; WINDOW];
    let mut showing = Showing {
        lines: Gathered::new(rt.stdout()),
        offset: 0,
        frames: 0,
    };
    window::run(&rt, "show", &mut rt.stdin(), &mut bytes, &mut showing);
}
