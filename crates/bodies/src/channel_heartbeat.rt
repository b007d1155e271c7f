// 390095, channel heartbeat; it has no texts.
ghost use Rattle.std.specs.Prelude.{refl};
ghost use Rattle.layout.specs.declared.channel_heartbeat.TheConstants as constants;
ghost use Rattle.bodies.specs.Body.{text_size};

use crate::Body;
use crate::groups::none;
use layout::{Refusal, channel_heartbeat, natural_in_range, yes_no_in_range};
use record::ChannelHeartbeat;
use wire::{Number, unsigned};

impl Body for ChannelHeartbeat {
    ghost TEXTS_SIZE = { constants.TEXTS_SIZE };

    const TEXTS_SIZE: usize = channel_heartbeat::TEXTS_SIZE;

    fn numbers_in_range(self) -> bool {
        natural_in_range(unsigned(self.last_number)) & yes_no_in_range(self.end)
    }

    fn judge_groups(self, groups: &[u8]) -> Result<(), Refusal> {
        none(groups)
    }

    fn store(self, texts: &[u8], out: &mut [u8]) {
        self.channel.put(out, channel_heartbeat::CHANNEL);
        self.last_number.put(out, channel_heartbeat::LAST_NUMBER);
        self.end.put(out, channel_heartbeat::END);
    }

    ghost record_is = { λ x. refl };

    ghost texts_size_is = { unfold text_size in refl };
}
