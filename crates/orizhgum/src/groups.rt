// The groups of statistics and of security status, by position.
ghost use Rattle.std.specs.Prelude.{◌≡◌};
ghost use Rattle.record.specs.Record.{group_of};
ghost use Rattle.record.specs.Paper.{means_group};
ghost use Rattle.orizhgum.specs.Groups.{numbered, group_answer};

use layout::TEXT_ROOM;
use record::{Group, GroupReading};
use wire::answers::{NO_SUCH_ENTRY, PLAIN};

// A group: the stock number and the texts of a stream, or a switch type and its yes/no; the others are zero.
#[repr(C)]
#[derive(Clone, Copy)]
pub struct Grouped {
    pub answer: u32,
    pub stock_number: u32,
    pub switch_type: u16,
    pub yes_no: u16,
    pub texts: [u8; TEXT_ROOM],
}

const NO_GROUP: Grouped = Grouped {
    answer: PLAIN,
    stock_number: 0,
    switch_type: 0,
    yes_no: 0,
    texts: [0; TEXT_ROOM],
};

// A group that is there.
fn found(r: GroupReading) -> Grouped
    ensures { result ≡ numbered (means_group r.group) r.texts.bytes }
{
    let texts = r.texts.bytes;
    match r.group {
        Group::Stream(g) => Grouped {
            stock_number: g.stock_number,
            texts,
            ..NO_GROUP
        },
        Group::Switch(g) => Grouped {
            switch_type: g.switch_type,
            yes_no: g.yes_no,
            texts,
            ..NO_GROUP
        },
    }
}

// Group i of a body, from 0.
pub fn orizhgum_group(kind: u32, body: &[u8], i: u32) -> Grouped
    ensures { result ≡ group_answer (group_of kind body.now i) }
{
    match record::group_of(kind, body, i) {
        Ok(Some(r)) => found(r),
        Ok(None) => Grouped {
            answer: NO_SUCH_ENTRY,
            ..NO_GROUP
        },
        Err(x) => Grouped {
            answer: u32::from(x),
            ..NO_GROUP
        },
    }
}
