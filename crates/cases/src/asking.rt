// Requests: the bytes that are written, and the answers that write nothing.
use crate::Lines;
use crate::said::Said;
use std::fmt::Write;
use tracker::{RequestRefusal, Tracker};

const CHANNEL: u16 = 2011;

fn fresh() -> Tracker {
    Tracker::set_up(&[CHANNEL], &[1]).tracker
}

fn after(number: i64) -> Tracker {
    fresh().tick(CHANNEL, number).next
}

// A request for a channel, to the first bytes of an output.
fn tried(
    t: Tracker,
    channel: u16,
    out: Option<&mut [u8]>,
) -> Result<Option<usize>, RequestRefusal> {
    match out {
        Some(part) => t.request(channel, part),
        None => Err(RequestRefusal::OutputShort),
    }
}

// A case: its name, the answer to a request to so many bytes of an output, and what the output holds then.
fn line(lines: &mut Lines, name: &str, t: Tracker, channel: u16, room: usize) {
    let mut out = [7u8; 57];
    let answer = tried(t, channel, out.get_mut(..room));
    let _ = write!(lines, "{name}: {}", Said::from(answer));
    for b in out {
        let _ = write!(lines, " {b}");
    }
    let _ = writeln!(lines);
}

pub fn cases(lines: &mut Lines) {
    line(lines, "request, 1 to 4 missing", after(5), CHANNEL, 56);
    line(lines, "request, 1 to 999 missing", after(1000), CHANNEL, 56);
    line(lines, "request, none missing, short", fresh(), CHANNEL, 55);
    line(lines, "request, output of 55 bytes", after(5), CHANNEL, 55);
    line(lines, "request, channel 2012, short", after(5), 2012, 55);
}
