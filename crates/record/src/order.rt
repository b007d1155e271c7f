// 300192, order; its texts are stream, security and source.
ghost use Rattle.std.specs.Prelude.{refl};
ghost use Rattle.layout.specs.Layout as of;
ghost use Rattle.layout.specs.Layout.{type_number, size};
ghost use Rattle.layout.specs.declared.order.TheConstants as constants;
ghost use Rattle.record.specs.declared.Record.TheVariants as is;

use crate::Record;
use crate::body::Listed;
use crate::texts::{Texts, gather};
use layout::{
    Groups, number_in_range, order, order_type_in_range, price_in_range, quantity_in_range,
    side_in_range, time_in_range,
};
use wire::Number;

#[repr(C)]
#[derive(Clone, Copy)]
pub struct Order {
    pub channel: u16,
    pub number: i64,
    pub order_price: i64,
    pub quantity: i64,
    pub side: u8,
    pub time: i64,
    pub order_type: u8,
}

impl Listed for Order {
    ghost layout = { of.order };

    ghost variant = { is.Order };

    ghost KIND = { type_number of.order };

    const KIND: u32 = Record::ORDER;

    ghost SIZE = { constants.SIZE };

    const SIZE: usize = order::SIZE;

    fn groups() -> Option<Groups> {
        None
    }

    fn in_range(body: &[u8]) -> bool {
        number_in_range(u64::at(body, order::NUMBER))
            & (price_in_range(u64::at(body, order::PRICE))
                & (quantity_in_range(u64::at(body, order::QUANTITY))
                    & (side_in_range(u8::at(body, order::SIDE))
                        & (time_in_range(u64::at(body, order::TIME))
                            & order_type_in_range(u8::at(body, order::ORDER_TYPE))))))
    }

    fn fields(body: &[u8]) -> Order {
        Order {
            channel: u16::at(body, order::CHANNEL),
            number: i64::at(body, order::NUMBER),
            order_price: i64::at(body, order::PRICE),
            quantity: i64::at(body, order::QUANTITY),
            side: u8::at(body, order::SIDE),
            time: i64::at(body, order::TIME),
            order_type: u8::at(body, order::ORDER_TYPE),
        }
    }

    fn gathered(body: &[u8]) -> Texts {
        gather(body, order::STREAM, order::TEXTS_SIZE, 0, 0)
    }

    fn as_record(self) -> Record {
        Record::Order(self)
    }

    ghost kind_is = { refl };

    ghost size_is = { unfold size in refl };
}
