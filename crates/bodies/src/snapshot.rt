// 300111, snapshot; its texts are stream, security, source and phase.
ghost use Rattle.std.specs.Prelude.{refl};
ghost use Rattle.layout.specs.declared.snapshot.TheConstants as constants;
ghost use Rattle.bodies.specs.Body.{text_size};

use crate::{Body, common};
use layout::{Groups, Refusal, judge_all, snapshot};
use record::Snapshot;

impl Body for Snapshot {
    ghost TEXTS_SIZE = { constants.TEXTS_SIZE };

    const TEXTS_SIZE: usize = snapshot::TEXTS_SIZE;

    #[tactic(auto, using(crate::proofs::Tests::snapshot_in))]
    fn numbers_in_range(self) -> bool {
        common::in_range(self.common)
    }

    fn judge_groups(self, groups: &[u8]) -> Result<(), Refusal> {
        judge_all(Groups::SnapshotEntries, groups, self.count)
    }

    fn store(self, texts: &[u8], out: &mut [u8]) {
        common::store(self.common, self.count, texts, out);
    }

    ghost record_is = { λ x. refl };

    ghost texts_size_is = { unfold text_size in refl };
}
