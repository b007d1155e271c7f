// A cut of a stream that goes on: read where it is, or behind the bytes of an unfinished frame in the lent buffer.
// The buffer, and how many bytes of it are held, go side by side: C lends the one and hands the other at each call.
ghost use Rattle.std.specs.Prelude.{◌≡◌, ◌-◌, ◌≤◌, ◌<◌, [], length, take};
ghost use Rattle.frame.specs.Framing.{header_width, body_limit, longest};
ghost use Rattle.frame.specs.Wanting.{wanting};
ghost use Rattle.streams.specs.Stream.{read_on, kept_on};
ghost use Rattle.streams.specs.Steps.{Holding, Lacking, Brought, Judgeable, more_told, stop_told, judged};
ghost use Rattle.streams.specs.Paper.{means_pushed};

use crate::keep::keep;
use crate::{Pushed, Says, Stream};
use frame::{Frame, Refusal};

// The whole cut is taken, and no frame is whole yet.
fn more(took: usize, held: usize, missing: usize) -> Pushed
    ensures { means_pushed result ≡ more_told took held missing }
{
    Pushed {
        says: Says::More { missing },
        took,
        next: Stream {
            held,
            mark: Stream::GOING,
        },
    }
}

// The stream stops at a refusal.
fn stopped(why: Refusal, took: usize) -> Pushed
    ensures { means_pushed result ≡ stop_told why took }
{
    Pushed {
        says: Says::Refused(why),
        took,
        next: Stream {
            held: 0,
            mark: u32::from(why),
        },
    }
}

// A cut behind held bytes that lacks so many with them: all of it is kept.
fn keep_all(buffer: &mut [u8], held: usize, cut: &[u8], missing: usize) -> Pushed
    requires { Lacking header_width body_limit buffer.old held cut.now missing }
    ensures result_value { means_pushed result ≡ read_on header_width body_limit (take held buffer.old) cut.now }
    ensures buffer_after { buffer.new ≡ kept_on header_width body_limit (take held buffer.old) cut.now buffer.old }
{
    keep(buffer, held, cut);
    more(cut.len(), held + cut.len(), missing)
}

// A cut where no bytes are held: what lies whole in it is read where it is.
pub(crate) fn begin(buffer: &mut [u8], cut: &[u8]) -> Pushed
    requires { longest header_width body_limit ≤ length buffer.old }
    ensures result_value { means_pushed result ≡ read_on header_width body_limit [] cut.now }
    ensures buffer_after { buffer.new ≡ kept_on header_width body_limit [] cut.now buffer.old }
{
    match frame::read(cut) {
        Ok(f) => Pushed {
            says: Says::InCut(f),
            took: f.total,
            next: Stream::new(),
        },
        Err(Refusal::TooShort { missing }) => keep_all(buffer, 0, cut, missing),
        Err(why) => stopped(why, frame::reach(cut)),
    }
}

// What some bytes that lack nothing read as, so many of them held before this cut.
fn judge(bytes: &[u8], held: usize) -> Pushed
    requires { Judgeable header_width body_limit bytes.now held }
    ensures { means_pushed result ≡ judged header_width body_limit bytes.now held }
{
    match frame::read(bytes) {
        Ok(f) => Pushed {
            says: Says::InBuffer(f),
            took: bytes.len() - held,
            next: Stream::new(),
        },
        Err(why) => stopped(why, bytes.len() - held),
    }
}

// A cut that brings a frame's end, whose header is held.
fn finish(buffer: &mut [u8], held: usize, lacks: usize, cut: &[u8]) -> Pushed
    requires { Brought header_width body_limit buffer.old held lacks cut.now × (header_width ≤ held) }
    ensures result_value { means_pushed result ≡ read_on header_width body_limit (take held buffer.old) cut.now }
    ensures buffer_after { buffer.new ≡ kept_on header_width body_limit (take held buffer.old) cut.now buffer.old }
{
    keep(buffer, held, &cut[..lacks]);
    judge(&buffer[..held + lacks], held)
}

// A cut that brings what a header lacks, and what the frame lacks then, or as much of it as there is.
fn lead(buffer: &mut [u8], held: usize, cut: &[u8]) -> Pushed
    requires { Brought header_width body_limit buffer.old held (header_width - held) cut.now × (held ≤ header_width) }
    ensures result_value { means_pushed result ≡ read_on header_width body_limit (take held buffer.old) cut.now }
    ensures buffer_after { buffer.new ≡ kept_on header_width body_limit (take held buffer.old) cut.now buffer.old }
{
    let came = Frame::HEADER - held;
    let (head, tail) = cut.split_at(came);
    keep(buffer, held, head);
    let front = held + came;
    let rest = frame::wanting(&buffer[..front]);
    if tail.len() < rest {
        keep(buffer, front, tail);
        return more(cut.len(), held + cut.len(), rest - tail.len());
    }
    keep(buffer, front, &tail[..rest]);
    judge(&buffer[..front + rest], held)
}

// A cut behind held bytes, which lack so many.
pub(crate) fn behind(buffer: &mut [u8], held: usize, lacks: usize, cut: &[u8]) -> Pushed
    requires { (Holding header_width body_limit buffer.old held) × (0 < held) × (lacks ≡ wanting header_width body_limit (take held buffer.old)) }
    ensures result_value { means_pushed result ≡ read_on header_width body_limit (take held buffer.old) cut.now }
    ensures buffer_after { buffer.new ≡ kept_on header_width body_limit (take held buffer.old) cut.now buffer.old }
{
    if cut.len() < lacks {
        return keep_all(buffer, held, cut, lacks - cut.len());
    }
    if Frame::HEADER <= held {
        return finish(buffer, held, lacks, cut);
    }
    lead(buffer, held, cut)
}
