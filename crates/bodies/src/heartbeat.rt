// 3, heartbeat; it has neither fields nor texts.
ghost use Rattle.std.specs.Prelude.{refl};
ghost use Rattle.layout.specs.declared.heartbeat.TheConstants as constants;
ghost use Rattle.bodies.specs.Body.{text_size};

use crate::Body;
use crate::groups::none;
use layout::{Refusal, heartbeat};
use record::Heartbeat;

impl Body for Heartbeat {
    ghost TEXTS_SIZE = { constants.TEXTS_SIZE };

    const TEXTS_SIZE: usize = heartbeat::TEXTS_SIZE;

    #[tactic(auto, unfolding(crate::specs::Body::numbers_in))]
    fn numbers_in_range(self) -> bool {
        true
    }

    fn judge_groups(self, groups: &[u8]) -> Result<(), Refusal> {
        none(groups)
    }

    fn store(self, _texts: &[u8], _out: &mut [u8]) {}

    ghost record_is = { λ x. refl };

    ghost texts_size_is = { unfold text_size in refl };
}
