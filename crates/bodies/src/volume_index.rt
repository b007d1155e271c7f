// 309111, volume index; its texts are stream, security, source and phase.
ghost use Rattle.std.specs.Prelude.{refl};
ghost use Rattle.layout.specs.declared.volume_index.TheConstants as constants;
ghost use Rattle.bodies.specs.Body.{text_size};

use crate::groups::none;
use crate::{Body, common};
use layout::{Refusal, volume_index};
use record::VolumeIndex;

impl Body for VolumeIndex {
    ghost TEXTS_SIZE = { constants.TEXTS_SIZE };

    const TEXTS_SIZE: usize = volume_index::TEXTS_SIZE;

    #[tactic(auto, using(crate::proofs::Tests::volume_index_in))]
    fn numbers_in_range(self) -> bool {
        common::in_range(self.common)
    }

    fn judge_groups(self, groups: &[u8]) -> Result<(), Refusal> {
        none(groups)
    }

    #[tactic(auto, unfolding(layout::specs::Layout::size, crate::specs::Body::text_size, crate::specs::Body::encode))]
    fn store(self, texts: &[u8], out: &mut [u8]) {
        common::store(self.common, self.stock_number, texts, out);
    }

    ghost record_is = { λ x. refl };

    ghost texts_size_is = { unfold text_size in refl };
}
