// 309111, volume index; its texts are stream, security, source and phase.
ghost use Rattle.std.specs.Prelude.{refl};
ghost use Rattle.layout.specs.Layout as of;
ghost use Rattle.layout.specs.Layout.{type_number, size};
ghost use Rattle.layout.specs.declared.volume_index.TheConstants as constants;
ghost use Rattle.record.specs.declared.Record.TheVariants as is;

use crate::Record;
use crate::body::Listed;
use crate::common::Common;
use crate::texts::Texts;
use layout::{Groups, volume_index};
use wire::Number;

// A struct of its own: the C interface has three, and what they share is Common.
#[repr(C)]
#[derive(Clone, Copy)]
pub struct VolumeIndex {
    pub common: Common,
    pub stock_number: u32,
}

impl Listed for VolumeIndex {
    ghost layout = { of.volume_index };

    ghost variant = { is.VolumeIndex };

    ghost KIND = { type_number of.volume_index };

    const KIND: u32 = Record::VOLUME_INDEX;

    ghost SIZE = { constants.SIZE };

    const SIZE: usize = volume_index::SIZE;

    fn groups() -> Option<Groups> {
        None
    }

    fn in_range(body: &[u8]) -> bool {
        Common::in_range(body)
    }

    fn fields(body: &[u8]) -> VolumeIndex {
        VolumeIndex {
            common: Common::fields(body),
            stock_number: u32::at(body, volume_index::STOCK_NUMBER),
        }
    }

    fn gathered(body: &[u8]) -> Texts {
        Common::gathered(body)
    }

    fn as_record(self) -> Record {
        Record::VolumeIndex(self)
    }

    ghost kind_is = { refl };

    ghost size_is = { unfold size in refl };
}
