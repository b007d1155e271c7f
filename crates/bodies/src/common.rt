// 300111, 309011 and 309111: the common part and one number of four bytes; their texts are stream, security, source and phase.
ghost use Rattle.std.specs.Prelude.{◌≡◌, [], ◌∷◌, pos, length};
ghost use Rattle.layout.specs.Layout.{common_part, fields, size};
ghost use Rattle.layout.specs.Layout as of;
ghost use Rattle.record.specs.Paper.{common_values};
ghost use Rattle.bodies.specs.Body.{text_size, encode, numbers_in};

use layout::{
    amount_in_range, common, natural_in_range, price_in_range, quantity_in_range, snapshot,
    time_in_range,
};
use record::Common;
use wire::{Number, unsigned};

// Whether the numbers of the common part are in range.
pub(crate) fn in_range(r: Common) -> bool
    ensures { result ≡ numbers_in common_part (common_values r []) }
{
    time_in_range(unsigned(r.time))
        & (price_in_range(unsigned(r.previous_close))
            & (natural_in_range(unsigned(r.trade_count))
                & (quantity_in_range(unsigned(r.volume)) & amount_in_range(unsigned(r.amount)))))
}

// The fields, one behind the other, with a count or a stock number as the last, for texts and an output of just their lengths.
pub(crate) fn store(r: Common, last: u32, texts: &[u8], out: &mut [u8])
    ensures { length texts.now ≡ text_size (fields of.snapshot) → length out.old ≡ size (fields of.snapshot) → out.new ≡ encode (fields of.snapshot) (common_values r (pos last ∷ [])) texts.now }
{
    r.time.put(out, common::TIME);
    r.channel.put(out, common::CHANNEL);
    wire::copy(out, common::STREAM, texts);
    r.previous_close.put(out, common::PREVIOUS_CLOSE);
    r.trade_count.put(out, common::TRADE_COUNT);
    r.volume.put(out, common::VOLUME);
    r.amount.put(out, common::AMOUNT);
    last.put(out, snapshot::COUNT);
}
