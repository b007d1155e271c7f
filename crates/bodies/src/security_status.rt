// 390013, security status; its texts are security, source and financial status.
ghost use Rattle.std.specs.Prelude.{refl};
ghost use Rattle.layout.specs.declared.security_status.TheConstants as constants;
ghost use Rattle.bodies.specs.Body.{text_size};

use crate::Body;
use layout::{Groups, Refusal, judge_all, security_status, time_in_range};
use record::SecurityStatus;
use wire::{Number, unsigned};

impl Body for SecurityStatus {
    ghost TEXTS_SIZE = { constants.TEXTS_SIZE };

    const TEXTS_SIZE: usize = security_status::TEXTS_SIZE;

    fn numbers_in_range(self) -> bool {
        time_in_range(unsigned(self.time))
    }

    fn judge_groups(self, groups: &[u8]) -> Result<(), Refusal> {
        judge_all(Groups::Switches, groups, self.count)
    }

    fn store(self, texts: &[u8], out: &mut [u8]) {
        self.time.put(out, security_status::TIME);
        self.channel.put(out, security_status::CHANNEL);
        wire::copy(out, security_status::SECURITY, texts);
        self.count.put(out, security_status::COUNT);
    }

    ghost record_is = { λ x. refl };

    ghost texts_size_is = { unfold text_size in refl };
}
