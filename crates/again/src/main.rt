// Standard input's frames of listed types, read and written again: the same bytes, where a body has no tail.
#![tactic(auto)]

ghost use Rattle.std.specs.Prelude.{IfOk};
ghost use Rattle.window.specs.Window.{Fits};

use frame::Frame;
use record::Reading;
use std::io;
use std::io::{Stdout, Write};
use window::{Program, Step};

// The window that slides over the input holds the longest frame several times, so that reads are few.
const WINDOW: usize = 4 * Frame::LIMIT;

// Where frames are written, and where they are laid before.
#[derive(Drop)]
struct Again {
    output: Stdout,
    out: [u8; Frame::LIMIT],
}

impl Again {
    // A frame's body, where its type's number is listed and it is not refused: its record with its texts and groups, as a frame.
    fn rewrite(&mut self, kind: u32, body: &[u8]) -> io::Result<()> {
        let Ok(Reading { record, texts }) = record::read(kind, body) else {
            return Ok(());
        };
        let groups = record::groups_of(kind, body);
        let found = texts.bytes.get(..texts.length).unwrap_or(&texts.bytes);
        let Ok(n) = writer::write(record, found, groups, &mut self.out) else {
            return Ok(());
        };
        self.output
            .write_all(self.out.get(..n).unwrap_or(&self.out))
    }
}

impl Program for Again {
    // What is refused is left; more bytes are read behind it while there is room.
    fn step(&mut self, bytes: &[u8]) -> io::Result<Step> {
        match frame::read(bytes) {
            Ok(f) => {
                self.rewrite(f.kind, frame::body(bytes))?;
                Ok(Step::Took(f.total))
            }
            Err(_) => Ok(Step::Waits),
        }
    }

    fn end(&mut self, _left: &[u8]) -> io::Result<()> {
        Ok(())
    }

    // Each frame is written as it comes.
    fn flush(&mut self) -> io::Result<()> {
        Ok(())
    }
}

fn main(rt: HostRuntime) {
    let mut bytes = [0u8; WINDOW];
    let mut again = Again {
        output: rt.stdout(),
        out: [0; Frame::LIMIT],
    };
    window::run(&rt, "again", &mut rt.stdin(), &mut bytes, &mut again);
}
