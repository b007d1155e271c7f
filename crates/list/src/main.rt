// The listing program: offset, type and body length of each frame on standard input, up to the end or to a refusal 1 to 3.
#![tactic(auto)]

ghost use Rattle.std.specs.Prelude.{IfOk};
ghost use Rattle.window.specs.Window.{Fits};

use frame::{Frame, Refusal};
use std::io;
use window::{Listing, Program, Step};

// The window that slides over the input holds the longest frame several times, so that reads are few.
const WINDOW: usize = 4 * Frame::LIMIT;

#[derive(Drop)]
struct List(Listing);

impl Program for List {
    // Lists a frame. A refusal 1 waits for more bytes.
    fn step(&mut self, bytes: &[u8]) -> io::Result<Step> {
        match frame::read(bytes) {
            Ok(f) => {
                self.0.line(f.kind, f.len, f.total)?;
                Ok(Step::Took(f.total))
            }
            Err(Refusal::TooShort { .. }) => Ok(Step::Waits),
            Err(_) => Ok(Step::Ends),
        }
    }

    // The last line: the refusal of the bytes that are left, if there are any, and what they lack.
    fn end(&mut self, left: &[u8]) -> io::Result<()> {
        let refused = if left.is_empty() {
            None
        } else {
            frame::read(left).err()
        };
        self.0.last(
            refused.map_or(0, u32::from),
            refused.map_or(0, Refusal::missing),
        )
    }

    fn flush(&mut self) -> io::Result<()> {
        self.0.lines.flush_all()
    }
}

fn main(rt: HostRuntime) {
    let mut bytes = [0u8; WINDOW];
    let mut list = List(Listing::new(rt.stdout()));
    window::run(&rt, "list", &mut rt.stdin(), &mut bytes, &mut list);
}
