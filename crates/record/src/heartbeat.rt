// 3, heartbeat: no fields; a body is all tail.
ghost use Rattle.std.specs.Prelude.{refl};
ghost use Rattle.layout.specs.Layout as of;
ghost use Rattle.layout.specs.Layout.{type_number, size};
ghost use Rattle.layout.specs.declared.heartbeat.TheConstants as constants;
ghost use Rattle.record.specs.declared.Record.TheVariants as is;

use crate::Record;
use crate::body::Listed;
use crate::texts::{Texts, no_texts};
use layout::{Groups, heartbeat};

#[derive(Clone, Copy)]
pub struct Heartbeat;

impl Listed for Heartbeat {
    ghost layout = { of.heartbeat };

    ghost variant = { λ _. is.Heartbeat };

    ghost KIND = { type_number of.heartbeat };

    const KIND: u32 = Record::HEARTBEAT;

    ghost SIZE = { constants.SIZE };

    const SIZE: usize = heartbeat::SIZE;

    fn groups() -> Option<Groups> {
        None
    }

    fn in_range(body: &[u8]) -> bool {
        true
    }

    fn fields(body: &[u8]) -> Heartbeat {
        Heartbeat
    }

    fn gathered(body: &[u8]) -> Texts {
        no_texts()
    }

    fn as_record(self) -> Record {
        Record::Heartbeat
    }

    ghost kind_is = { refl };

    ghost size_is = { unfold size in refl };
}
