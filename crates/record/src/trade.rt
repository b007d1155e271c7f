// 300191, trade; its texts are stream, security and source.
ghost use Rattle.std.specs.Prelude.{refl};
ghost use Rattle.layout.specs.Layout as of;
ghost use Rattle.layout.specs.Layout.{type_number, size};
ghost use Rattle.layout.specs.declared.trade.TheConstants as constants;
ghost use Rattle.record.specs.declared.Record.TheVariants as is;

use crate::Record;
use crate::body::Listed;
use crate::texts::{Texts, gather};
use layout::{
    Groups, execution_in_range, natural_in_range, number_in_range, price_in_range,
    quantity_in_range, time_in_range, trade, width,
};
use wire::Number;

#[repr(C)]
#[derive(Clone, Copy)]
pub struct Trade {
    pub channel: u16,
    pub number: i64,
    pub bid_number: i64,
    pub offer_number: i64,
    pub trade_price: i64,
    pub quantity: i64,
    pub execution: u8,
    pub time: i64,
}

// The two texts that stand side by side.
const SECURITY_AND_SOURCE: usize = width::SECURITY + width::SOURCE;

impl Listed for Trade {
    ghost layout = { of.trade };

    ghost variant = { is.Trade };

    ghost KIND = { type_number of.trade };

    const KIND: u32 = Record::TRADE;

    ghost SIZE = { constants.SIZE };

    const SIZE: usize = trade::SIZE;

    fn groups() -> Option<Groups> {
        None
    }

    fn in_range(body: &[u8]) -> bool {
        number_in_range(u64::at(body, trade::NUMBER))
            & (natural_in_range(u64::at(body, trade::BID_NUMBER))
                & (natural_in_range(u64::at(body, trade::OFFER_NUMBER))
                    & (price_in_range(u64::at(body, trade::PRICE))
                        & (quantity_in_range(u64::at(body, trade::QUANTITY))
                            & (execution_in_range(u8::at(body, trade::EXECUTION))
                                & time_in_range(u64::at(body, trade::TIME)))))))
    }

    fn fields(body: &[u8]) -> Trade {
        Trade {
            channel: u16::at(body, trade::CHANNEL),
            number: i64::at(body, trade::NUMBER),
            bid_number: i64::at(body, trade::BID_NUMBER),
            offer_number: i64::at(body, trade::OFFER_NUMBER),
            trade_price: i64::at(body, trade::PRICE),
            quantity: i64::at(body, trade::QUANTITY),
            execution: u8::at(body, trade::EXECUTION),
            time: i64::at(body, trade::TIME),
        }
    }

    fn gathered(body: &[u8]) -> Texts {
        gather(
            body,
            trade::STREAM,
            width::STREAM,
            trade::SECURITY,
            SECURITY_AND_SOURCE,
        )
    }

    fn as_record(self) -> Record {
        Record::Trade(self)
    }

    ghost kind_is = { refl };

    ghost size_is = { unfold size in refl };
}
