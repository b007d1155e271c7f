// 300192, order; its texts are stream, security and source.
ghost use Rattle.std.specs.Prelude.{refl};
ghost use Rattle.layout.specs.declared.order.TheConstants as constants;
ghost use Rattle.bodies.specs.Body.{text_size};

use crate::Body;
use crate::groups::none;
use layout::{
    Refusal, number_in_range, order, order_type_in_range, price_in_range, quantity_in_range,
    side_in_range, time_in_range,
};
use record::Order;
use wire::{Number, unsigned};

impl Body for Order {
    ghost TEXTS_SIZE = { constants.TEXTS_SIZE };

    const TEXTS_SIZE: usize = order::TEXTS_SIZE;

    fn numbers_in_range(self) -> bool {
        number_in_range(unsigned(self.number))
            & (price_in_range(unsigned(self.order_price))
                & (quantity_in_range(unsigned(self.quantity))
                    & (side_in_range(self.side)
                        & (time_in_range(unsigned(self.time))
                            & order_type_in_range(self.order_type)))))
    }

    fn judge_groups(self, groups: &[u8]) -> Result<(), Refusal> {
        none(groups)
    }

    fn store(self, texts: &[u8], out: &mut [u8]) {
        self.channel.put(out, order::CHANNEL);
        self.number.put(out, order::NUMBER);
        wire::copy(out, order::STREAM, texts);
        self.order_price.put(out, order::PRICE);
        self.quantity.put(out, order::QUANTITY);
        self.side.put(out, order::SIDE);
        self.time.put(out, order::TIME);
        self.order_type.put(out, order::ORDER_TYPE);
    }

    ghost record_is = { λ x. refl };

    ghost texts_size_is = { unfold text_size in refl };
}
