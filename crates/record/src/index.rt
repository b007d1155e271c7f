// 309011, index; its texts are stream, security, source and phase.
ghost use Rattle.std.specs.Prelude.{refl};
ghost use Rattle.layout.specs.Layout as of;
ghost use Rattle.layout.specs.Layout.{type_number, size};
ghost use Rattle.layout.specs.declared.index.TheConstants as constants;
ghost use Rattle.record.specs.declared.Record.TheVariants as is;

use crate::Record;
use crate::body::Listed;
use crate::common::Common;
use crate::texts::Texts;
use layout::{Groups, index};
use wire::Number;

// A struct of its own: the C interface has three, and what they share is Common.
#[repr(C)]
#[derive(Clone, Copy)]
pub struct Index {
    pub common: Common,
    pub count: u32,
}

impl Listed for Index {
    ghost layout = { of.index };

    ghost variant = { is.Index };

    ghost KIND = { type_number of.index };

    const KIND: u32 = Record::INDEX;

    ghost SIZE = { constants.SIZE };

    const SIZE: usize = index::SIZE;

    fn groups() -> Option<Groups> {
        Some(Groups::IndexEntries)
    }

    fn in_range(body: &[u8]) -> bool {
        Common::in_range(body)
    }

    fn fields(body: &[u8]) -> Index {
        Index {
            common: Common::fields(body),
            count: u32::at(body, index::COUNT),
        }
    }

    fn gathered(body: &[u8]) -> Texts {
        Common::gathered(body)
    }

    fn as_record(self) -> Record {
        Record::Index(self)
    }

    ghost kind_is = { refl };

    ghost size_is = { unfold size in refl };
}
