// A type without groups takes none: 4 where some are lent.
ghost use Rattle.std.specs.Prelude.{◌≡◌};
ghost use Rattle.layout.specs.Group.{no_group, judge_all};
ghost use Rattle.layout.specs.Paper.{means_verdict};

use layout::Refusal;

#[tactic(auto, using(crate::proofs::Parts::none_even, crate::proofs::Parts::none_odd))]
pub(crate) fn none(groups: &[u8]) -> Result<(), Refusal>
    ensures { means_verdict result ≡ judge_all no_group groups.now 0 }
{
    if groups.is_empty() {
        Ok(())
    } else {
        Err(Refusal::NotItsLayout)
    }
}
