// The writer's refusals, each with an output whose every byte is marked before.
use crate::Lines;
use crate::said::Said;
use record::{Order, Record, SecurityStatus, Statistics};
use std::fmt::Write;

const MARK: u8 = 0xaa;

// A record to write, with so many bytes of texts and of groups, to an output of room bytes.
#[derive(Clone, Copy)]
struct Case {
    record: Record,
    texts: usize,
    groups: usize,
    room: usize,
}

fn with(record: Record, texts: usize, groups: usize, room: usize) -> Case {
    Case {
        record,
        texts,
        groups,
        room,
    }
}

fn order(number: i64) -> Record {
    Record::Order(Order {
        channel: 2011,
        number,
        order_price: 123400,
        quantity: 50000,
        side: b'1',
        time: 20261113091500000,
        order_type: b'2',
    })
}

fn statistics(count: u32) -> Record {
    Record::Statistics(Statistics {
        time: 20261113091500000,
        channel: 1011,
        count,
    })
}

fn status(count: u32) -> Record {
    Record::SecurityStatus(SecurityStatus {
        time: 20261113091500000,
        channel: 1011,
        count,
    })
}

// Writes a case to the first bytes of an output. The texts are spaces; the first group, as a switch, has yes/no 2.
fn tried(c: Case, out: &mut [u8]) -> Result<usize, writer::Refusal> {
    let texts = [b' '; layout::TEXT_ROOM];
    let mut groups = [0u8; 16380];
    groups[3] = 2;
    match out.get_mut(..c.room) {
        Some(part) => writer::write(
            c.record,
            texts.get(..c.texts).unwrap_or(&texts),
            groups.get(..c.groups).unwrap_or(&groups),
            part,
        ),
        None => Ok(0),
    }
}

// Each case: its name, the answer, and whether the output stands.
pub fn cases(lines: &mut Lines) {
    let all = [
        (
            "unlisted type 390019",
            with(Record::Unknown(390019), 0, 0, 128),
        ),
        ("order, texts one short", with(order(1), 14, 0, 128)),
        ("order, texts one long", with(order(1), 16, 0, 128)),
        ("order, a group", with(order(1), 15, 1, 128)),
        (
            "statistics, one group of two",
            with(statistics(2), 0, 15, 128),
        ),
        (
            "statistics, one group of none",
            with(statistics(0), 0, 15, 128),
        ),
        ("security status, yes/no 2", with(status(1), 20, 4, 128)),
        ("order, number 0", with(order(0), 15, 0, 128)),
        (
            "statistics, 1,092 groups, output short too",
            with(statistics(1092), 0, 16380, 62),
        ),
        ("order, output of 62 bytes", with(order(1), 15, 0, 62)),
        ("order, output of 63 bytes", with(order(1), 15, 0, 63)),
    ];
    for (name, case) in all {
        let mut out = [MARK; 128];
        let said = Said::from(tried(case, &mut out));
        let stands = if out.iter().all(|b| *b == MARK) {
            "as it stood"
        } else {
            "changed"
        };
        let _ = writeln!(lines, "{name}: {said}, output {stands}");
    }
}
