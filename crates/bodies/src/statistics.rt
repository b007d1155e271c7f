// 390090, statistics; it has no texts of its own.
ghost use Rattle.std.specs.Prelude.{refl};
ghost use Rattle.layout.specs.declared.statistics.TheConstants as constants;
ghost use Rattle.bodies.specs.Body.{text_size};

use crate::Body;
use layout::{Groups, Refusal, judge_all, statistics, time_in_range};
use record::Statistics;
use wire::{Number, unsigned};

impl Body for Statistics {
    ghost TEXTS_SIZE = { constants.TEXTS_SIZE };

    const TEXTS_SIZE: usize = statistics::TEXTS_SIZE;

    fn numbers_in_range(self) -> bool {
        time_in_range(unsigned(self.time))
    }

    fn judge_groups(self, groups: &[u8]) -> Result<(), Refusal> {
        judge_all(Groups::Streams, groups, self.count)
    }

    fn store(self, texts: &[u8], out: &mut [u8]) {
        self.time.put(out, statistics::TIME);
        self.channel.put(out, statistics::CHANNEL);
        self.count.put(out, statistics::COUNT);
    }

    ghost record_is = { λ x. refl };

    ghost texts_size_is = { unfold text_size in refl };
}
