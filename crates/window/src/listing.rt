// The listing: a line for each frame, and a last one.
ghost use Rattle.std.specs.Prelude.{◌≡◌, ◌+◌, ◌%◌, ◌^◌, OnOk};

use crate::Gathered;
use std::io;
use std::io::Stdout;

// Where a listing is: the lines that are gathered, offset and frames so far.
#[derive(Drop)]
pub struct Listing {
    pub lines: Gathered<Stdout, { Listing::GATHERED }>,
    pub offset: u64,
    pub frames: u64,
}

impl Listing {
    // Lines are gathered and written together.
    pub const GATHERED: usize = 65536;

    pub fn new(output: Stdout) -> Listing
        ensures { (result.offset ≡ 0) × (result.frames ≡ 0) × (result.lines.held ≡ 0) }
    {
        Listing {
            lines: Gathered::new(output),
            offset: 0,
            frames: 0,
        }
    }

    // The line of a frame of a type, whose number it prints, of a body of len bytes, and of total bytes, behind which the listing is then.
    pub fn line(&mut self, kind: u32, len: usize, total: usize) -> io::Result<()>
        ensures offset { OnOk result (self.new.offset ≡ (self.old.offset + total) % 2 ^ 64) }
        ensures frames { OnOk result (self.new.frames ≡ (self.old.frames + 1) % 2 ^ 64) }
    {
        let lines = &mut self.lines;
        lines.held = text::frame_line(&mut lines.out, lines.held, self.offset, kind, len);
        lines.flush(text::LINE_ROOM)?;
        self.offset = self.offset.wrapping_add(total as u64);
        self.frames = self.frames.wrapping_add(1);
        Ok(())
    }

    // The last line, for a refusal's number, 0 where there is none, and how many bytes are missing, and all that is gathered.
    // A number, as `text::last_line` takes it.
    pub fn last(&mut self, refused: u32, missing: usize) -> io::Result<()>
        ensures { OnOk result (self.new.lines.held ≡ 0) }
    {
        let lines = &mut self.lines;
        let (offset, frames) = (self.offset, self.frames);
        lines.held = text::last_line(&mut lines.out, lines.held, offset, frames, refused, missing);
        lines.flush_all()
    }
}
