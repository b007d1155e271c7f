// 390094, resend; its texts are news id and reject text.
ghost use Rattle.std.specs.Prelude.{refl};
ghost use Rattle.layout.specs.Layout as of;
ghost use Rattle.layout.specs.Layout.{type_number, size};
ghost use Rattle.layout.specs.declared.resend.TheConstants as constants;
ghost use Rattle.record.specs.declared.Record.TheVariants as is;

use crate::Record;
use crate::body::Listed;
use crate::texts::{Texts, gather};
use layout::{Groups, natural_in_range, resend, resend_type_in_range, status_in_range, width};
use wire::Number;

#[repr(C)]
#[derive(Clone, Copy)]
pub struct Resend {
    pub resend_type: u8,
    pub channel: u16,
    pub first_number: i64,
    pub last_number: i64,
    pub status: u8,
}

impl Listed for Resend {
    ghost layout = { of.resend };

    ghost variant = { is.Resend };

    ghost KIND = { type_number of.resend };

    const KIND: u32 = Record::RESEND;

    ghost SIZE = { constants.SIZE };

    const SIZE: usize = resend::SIZE;

    fn groups() -> Option<Groups> {
        None
    }

    fn in_range(body: &[u8]) -> bool {
        resend_type_in_range(u8::at(body, resend::RESEND_TYPE))
            & (natural_in_range(u64::at(body, resend::FIRST_NUMBER))
                & (natural_in_range(u64::at(body, resend::LAST_NUMBER))
                    & status_in_range(u8::at(body, resend::STATUS))))
    }

    fn fields(body: &[u8]) -> Resend {
        Resend {
            resend_type: u8::at(body, resend::RESEND_TYPE),
            channel: u16::at(body, resend::CHANNEL),
            first_number: i64::at(body, resend::FIRST_NUMBER),
            last_number: i64::at(body, resend::LAST_NUMBER),
            status: u8::at(body, resend::STATUS),
        }
    }

    fn gathered(body: &[u8]) -> Texts {
        gather(
            body,
            resend::NEWS_ID,
            width::NEWS_ID,
            resend::REJECT_TEXT,
            width::REJECT_TEXT,
        )
    }

    fn as_record(self) -> Record {
        Record::Resend(self)
    }

    ghost kind_is = { refl };

    ghost size_is = { unfold size in refl };
}
