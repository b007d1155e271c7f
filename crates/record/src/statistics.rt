// 390090, statistics.
ghost use Rattle.std.specs.Prelude.{refl};
ghost use Rattle.layout.specs.Layout as of;
ghost use Rattle.layout.specs.Layout.{type_number, size};
ghost use Rattle.layout.specs.declared.statistics.TheConstants as constants;
ghost use Rattle.layout.specs.declared.stream.TheConstants as group_constants;
ghost use Rattle.record.specs.declared.Record.TheVariants as is;

use crate::Record;
use crate::body::Listed;
use crate::group::{Group, GroupReading, Grouped};
use crate::texts::{Texts, gather, no_texts};
use layout::{Groups, statistics, stream, time_in_range, width};
use wire::Number;

#[repr(C)]
#[derive(Clone, Copy)]
pub struct Statistics {
    pub time: i64,
    pub channel: u16,
    pub count: u32,
}

// A group of it; its texts are stream and phase.
#[derive(Clone, Copy)]
pub struct Stream {
    pub stock_number: u32,
}

impl Listed for Statistics {
    ghost layout = { of.statistics };

    ghost variant = { is.Statistics };

    ghost KIND = { type_number of.statistics };

    const KIND: u32 = Record::STATISTICS;

    ghost SIZE = { constants.SIZE };

    const SIZE: usize = statistics::SIZE;

    fn groups() -> Option<Groups> {
        Some(Groups::Streams)
    }

    fn in_range(body: &[u8]) -> bool {
        time_in_range(u64::at(body, statistics::TIME))
    }

    fn fields(body: &[u8]) -> Statistics {
        Statistics {
            time: i64::at(body, statistics::TIME),
            channel: u16::at(body, statistics::CHANNEL),
            count: u32::at(body, statistics::COUNT),
        }
    }

    fn gathered(body: &[u8]) -> Texts {
        no_texts()
    }

    fn as_record(self) -> Record {
        Record::Statistics(self)
    }

    ghost kind_is = { refl };

    ghost size_is = { unfold size in refl };
}

impl Grouped for Statistics {
    ghost each = { of.streams };

    ghost stride = { group_constants.WIDTH };

    fn group(body: &[u8], i: u32) -> GroupReading {
        let at = statistics::SIZE + stream::WIDTH * (i as usize);
        let stream = Stream {
            stock_number: u32::at(body, at + stream::STOCK_NUMBER),
        };
        GroupReading {
            group: Group::Stream(stream),
            texts: gather(body, at, width::STREAM, at + stream::PHASE, width::PHASE),
        }
    }

    ghost each_is = { refl };

    ghost stride_is = { unfold size in refl };

    ghost flat_is = { refl };
}
