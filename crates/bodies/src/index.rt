// 309011, index; its texts are stream, security, source and phase.
ghost use Rattle.std.specs.Prelude.{refl};
ghost use Rattle.layout.specs.declared.index.TheConstants as constants;
ghost use Rattle.bodies.specs.Body.{text_size};

use crate::{Body, common};
use layout::{Groups, Refusal, index, judge_all};
use record::Index;

impl Body for Index {
    ghost TEXTS_SIZE = { constants.TEXTS_SIZE };

    const TEXTS_SIZE: usize = index::TEXTS_SIZE;

    #[tactic(auto, using(crate::proofs::Tests::index_in))]
    fn numbers_in_range(self) -> bool {
        common::in_range(self.common)
    }

    fn judge_groups(self, groups: &[u8]) -> Result<(), Refusal> {
        judge_all(Groups::IndexEntries, groups, self.count)
    }

    fn store(self, texts: &[u8], out: &mut [u8]) {
        common::store(self.common, self.count, texts, out);
    }

    ghost record_is = { λ x. refl };

    ghost texts_size_is = { unfold text_size in refl };
}
