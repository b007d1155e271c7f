// 300111, snapshot; its texts are stream, security, source and phase.
ghost use Rattle.std.specs.Prelude.{refl};
ghost use Rattle.layout.specs.Layout as of;
ghost use Rattle.layout.specs.Layout.{type_number, size};
ghost use Rattle.layout.specs.declared.snapshot.TheConstants as constants;
ghost use Rattle.record.specs.declared.Record.TheVariants as is;

use crate::Record;
use crate::body::Listed;
use crate::common::Common;
use crate::texts::Texts;
use layout::{Groups, snapshot};
use wire::Number;

// A struct of its own: the C interface has three, and what they share is Common.
#[repr(C)]
#[derive(Clone, Copy)]
pub struct Snapshot {
    pub common: Common,
    pub count: u32,
}

impl Listed for Snapshot {
    ghost layout = { of.snapshot };

    ghost variant = { is.Snapshot };

    ghost KIND = { type_number of.snapshot };

    const KIND: u32 = Record::SNAPSHOT;

    ghost SIZE = { constants.SIZE };

    const SIZE: usize = snapshot::SIZE;

    fn groups() -> Option<Groups> {
        Some(Groups::SnapshotEntries)
    }

    fn in_range(body: &[u8]) -> bool {
        Common::in_range(body)
    }

    fn fields(body: &[u8]) -> Snapshot {
        Snapshot {
            common: Common::fields(body),
            count: u32::at(body, snapshot::COUNT),
        }
    }

    fn gathered(body: &[u8]) -> Texts {
        Common::gathered(body)
    }

    fn as_record(self) -> Record {
        Record::Snapshot(self)
    }

    ghost kind_is = { refl };

    ghost size_is = { unfold size in refl };
}
