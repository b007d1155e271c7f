// What the ten types' records have in common where they are written: how texts and groups are judged, and how the fields are stored.
ghost use Rattle.std.specs.Prelude.{◌≡◌, ℕ, length};
ghost use Rattle.layout.specs.Layout.{fields, size};
ghost use Rattle.layout.specs.Group.{group, judge_all};
ghost use Rattle.layout.specs.Paper.{means_verdict};
ghost use Rattle.record.specs.Paper.{means_record};
ghost use Rattle.record.specs.Record.{known};
ghost use Rattle.bodies.specs.Body.{text_size, encode, stated, numbers_in};
ghost use Rattle.bodies.specs.Parts.{numbers_of, verdict_of, put_fields};

use layout::{Refusal, also};
use record::Listed;

// A listed type's record, to be written.
pub trait Body: Listed {
    // The bytes of its texts.
    ghost TEXTS_SIZE: { ℕ };

    const TEXTS_SIZE: usize;

    // Whether its numbers are in range.
    fn numbers_in_range(self) -> bool
        ensures { result ≡ numbers_in (fields Self.layout) (numbers_of (Self.variant self)) };

    // The verdict on bytes that are to be its groups and nothing else.
    fn judge_groups(self, groups: &[u8]) -> Result<(), Refusal>
        ensures { means_verdict result ≡ judge_all (group Self.layout) groups.now (stated Self.layout (numbers_of (Self.variant self))) };

    // Its fields, one behind the other, for texts and an output of just their lengths.
    fn store(self, texts: &[u8], out: &mut [u8])
        ensures { length texts.now ≡ text_size (fields Self.layout) → length out.old ≡ size (fields Self.layout) → out.new ≡ encode (fields Self.layout) (numbers_of (Self.variant self)) texts.now };

    // 4 for texts or groups that aren't exactly its own, then 5 for a number out of range.
    final fn verdict(self, texts: &[u8], groups: &[u8]) -> Result<(), Refusal>
        ensures { means_verdict result ≡ verdict_of Self.layout (numbers_of (Self.variant self)) texts.now groups.now }
    {
        if texts.len() != Self::TEXTS_SIZE {
            return Err(Refusal::NotItsLayout);
        }
        also(self.judge_groups(groups), self.numbers_in_range())
    }

    // Its fields, where texts and output have just their lengths.
    final fn put(self, texts: &[u8], out: &mut [u8])
        ensures { out.new ≡ put_fields Self.layout (numbers_of (Self.variant self)) texts.now out.old }
    {
        if texts.len() != Self::TEXTS_SIZE {
            return;
        }
        if out.len() != Self::SIZE {
            return;
        }
        self.store(texts, out);
    }

    ghost record_is: { (x : Self) → means_record (Self.variant x) ≡ known Self.layout (numbers_of (Self.variant x)) };

    ghost texts_size_is: { text_size (fields Self.layout) ≡ TEXTS_SIZE };
}
