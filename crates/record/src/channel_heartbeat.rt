// 390095, channel heartbeat.
ghost use Rattle.std.specs.Prelude.{refl};
ghost use Rattle.layout.specs.Layout as of;
ghost use Rattle.layout.specs.Layout.{type_number, size};
ghost use Rattle.layout.specs.declared.channel_heartbeat.TheConstants as constants;
ghost use Rattle.record.specs.declared.Record.TheVariants as is;

use crate::Record;
use crate::body::Listed;
use crate::texts::{Texts, no_texts};
use layout::{Groups, channel_heartbeat, natural_in_range, yes_no_in_range};
use wire::Number;

#[repr(C)]
#[derive(Clone, Copy)]
pub struct ChannelHeartbeat {
    pub channel: u16,
    pub last_number: i64,
    pub end: u16,
}

impl Listed for ChannelHeartbeat {
    ghost layout = { of.channel_heartbeat };

    ghost variant = { is.ChannelHeartbeat };

    ghost KIND = { type_number of.channel_heartbeat };

    const KIND: u32 = Record::CHANNEL_HEARTBEAT;

    ghost SIZE = { constants.SIZE };

    const SIZE: usize = channel_heartbeat::SIZE;

    fn groups() -> Option<Groups> {
        None
    }

    fn in_range(body: &[u8]) -> bool {
        natural_in_range(u64::at(body, channel_heartbeat::LAST_NUMBER))
            & yes_no_in_range(u16::at(body, channel_heartbeat::END))
    }

    fn fields(body: &[u8]) -> ChannelHeartbeat {
        ChannelHeartbeat {
            channel: u16::at(body, channel_heartbeat::CHANNEL),
            last_number: i64::at(body, channel_heartbeat::LAST_NUMBER),
            end: u16::at(body, channel_heartbeat::END),
        }
    }

    fn gathered(body: &[u8]) -> Texts {
        no_texts()
    }

    fn as_record(self) -> Record {
        Record::ChannelHeartbeat(self)
    }

    ghost kind_is = { refl };

    ghost size_is = { unfold size in refl };
}
