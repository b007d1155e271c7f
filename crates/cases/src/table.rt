// A full gap table, by ticks 2, 4 and so on to 64: what it refuses and what it takes. And a freed place is used again: after 64
// and 1, 66 is new.
use crate::Lines;
use crate::said::Said;
use std::fmt::Write;
use tracker::{Reply, Tracker};

const CHANNEL: u16 = 2011;

// What comes to the tracker that the case before left.
#[derive(Clone, Copy)]
enum Arrival {
    Tick(i64),
    LastNumber(i64),
    // 64 and then this one, to a tracker that is full but for them.
    TickAnew(i64),
}

// The tracker of one channel after ticks 2, 4, up to 62.
fn evens() -> Tracker {
    let mut t = Tracker::set_up(&[CHANNEL], &[1]).tracker;
    for half in 1u16..32 {
        t = t.tick(CHANNEL, i64::from(2 * half)).next;
    }
    t
}

fn arrive(t: Tracker, arrival: Arrival) -> Reply {
    match arrival {
        Arrival::Tick(number) => t.tick(CHANNEL, number),
        Arrival::LastNumber(number) => t.heartbeat(CHANNEL, number, false),
        Arrival::TickAnew(number) => evens().tick(CHANNEL, 64).next.tick(CHANNEL, number),
    }
}

// Each case: its name, the answer, and how many runs the channel has then.
pub fn cases(lines: &mut Lines) {
    let all = [
        ("ticks 2, 4, up to 64", Arrival::Tick(64)),
        ("then 66", Arrival::Tick(66)),
        ("then last number 66", Arrival::LastNumber(66)),
        ("then 65", Arrival::Tick(65)),
        ("then 1", Arrival::Tick(1)),
        ("ticks 2, 4, up to 64, then 1", Arrival::TickAnew(1)),
        ("then 66", Arrival::Tick(66)),
    ];
    let mut t = evens();
    for (name, arrival) in all {
        let reply = arrive(t, arrival);
        t = reply.next;
        let _ = writeln!(
            lines,
            "{name}: {}, runs {}",
            Said::from(reply.verdict),
            t.counts[0]
        );
    }
}
