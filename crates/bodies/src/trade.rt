// 300191, trade; its texts are stream, security and source.
ghost use Rattle.std.specs.Prelude.{refl};
ghost use Rattle.layout.specs.declared.trade.TheConstants as constants;
ghost use Rattle.bodies.specs.Body.{text_size};

use crate::Body;
use crate::groups::none;
use layout::{
    Refusal, execution_in_range, natural_in_range, number_in_range, price_in_range,
    quantity_in_range, time_in_range, trade, width,
};
use record::Trade;
use wire::{Number, unsigned};

impl Body for Trade {
    ghost TEXTS_SIZE = { constants.TEXTS_SIZE };

    const TEXTS_SIZE: usize = trade::TEXTS_SIZE;

    fn numbers_in_range(self) -> bool {
        number_in_range(unsigned(self.number))
            & (natural_in_range(unsigned(self.bid_number))
                & (natural_in_range(unsigned(self.offer_number))
                    & (price_in_range(unsigned(self.trade_price))
                        & (quantity_in_range(unsigned(self.quantity))
                            & (execution_in_range(self.execution)
                                & time_in_range(unsigned(self.time)))))))
    }

    fn judge_groups(self, groups: &[u8]) -> Result<(), Refusal> {
        none(groups)
    }

    fn store(self, texts: &[u8], out: &mut [u8]) {
        let Some((stream, security)) = texts.split_at_checked(width::STREAM) else {
            return;
        };
        self.channel.put(out, trade::CHANNEL);
        self.number.put(out, trade::NUMBER);
        wire::copy(out, trade::STREAM, stream);
        self.bid_number.put(out, trade::BID_NUMBER);
        self.offer_number.put(out, trade::OFFER_NUMBER);
        wire::copy(out, trade::SECURITY, security);
        self.trade_price.put(out, trade::PRICE);
        self.quantity.put(out, trade::QUANTITY);
        self.execution.put(out, trade::EXECUTION);
        self.time.put(out, trade::TIME);
    }

    ghost record_is = { λ x. refl };

    ghost texts_size_is = { unfold text_size in refl };
}
