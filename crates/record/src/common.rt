// The part that snapshot, index and volume index have in common.
ghost use Rattle.std.specs.Prelude.{◌≡◌, [], length};
ghost use Rattle.layout.specs.Layout.{common_part, ranges, values, texts};
ghost use Rattle.record.specs.Asked.{filled};
ghost use Rattle.record.specs.Paper.{common_values};

use crate::texts::{Texts, gather};
use layout::{
    amount_in_range, common, natural_in_range, price_in_range, quantity_in_range, time_in_range,
};
use wire::Number;

#[repr(C)]
#[derive(Clone, Copy)]
pub struct Common {
    pub time: i64,
    pub channel: u16,
    pub previous_close: i64,
    pub trade_count: i64,
    pub volume: i64,
    pub amount: i64,
}

impl Common {
    // Whether its fields are in range. Bytes that are not there count as none.
    pub(crate) fn in_range(body: &[u8]) -> bool
        ensures { result ≡ ranges common_part body.now 0 }
    {
        time_in_range(u64::at(body, common::TIME))
            & (price_in_range(u64::at(body, common::PREVIOUS_CLOSE))
                & (natural_in_range(u64::at(body, common::TRADE_COUNT))
                    & (quantity_in_range(u64::at(body, common::VOLUME))
                        & amount_in_range(u64::at(body, common::AMOUNT)))))
    }

    // The numbers of its fields, from bytes of whatever length. Those that are not there count as none.
    fn read(b: &[u8]) -> Common
        ensures { common_values result [] ≡ values common_part b.now 0 }
    {
        Common {
            time: i64::at(b, common::TIME),
            channel: u16::at(b, common::CHANNEL),
            previous_close: i64::at(b, common::PREVIOUS_CLOSE),
            trade_count: i64::at(b, common::TRADE_COUNT),
            volume: i64::at(b, common::VOLUME),
            amount: i64::at(b, common::AMOUNT),
        }
    }

    // The numbers of its fields. Bytes that are not there count as none. A body that has them all is read in a part of constant length,
    // so that no field's read tests it: called as it stands, the reading took 1.6 times the instructions of a volume index.
    pub(crate) fn fields(body: &[u8]) -> Common
        ensures { common_values result [] ≡ values common_part body.now 0 }
    {
        if body.len() < common::SIZE {
            return Common::read(body);
        }
        Common::read(&body[0..common::SIZE])
    }

    // Its texts. Bytes that are not there count as none.
    pub(crate) fn gathered(body: &[u8]) -> Texts
        ensures { (result.bytes ≡ filled (texts common_part body.now 0)) × (result.length ≡ length (texts common_part body.now 0)) }
    {
        gather(body, common::STREAM, common::TEXTS_SIZE, 0, 0)
    }
}
