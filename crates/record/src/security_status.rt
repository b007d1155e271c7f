// 390013, security status; its texts are security, source and financial status.
ghost use Rattle.std.specs.Prelude.{refl};
ghost use Rattle.layout.specs.Layout as of;
ghost use Rattle.layout.specs.Layout.{type_number, size};
ghost use Rattle.layout.specs.declared.security_status.TheConstants as constants;
ghost use Rattle.layout.specs.declared.switch.TheConstants as group_constants;
ghost use Rattle.record.specs.declared.Record.TheVariants as is;

use crate::Record;
use crate::body::Listed;
use crate::group::{Group, GroupReading, Grouped};
use crate::texts::{Texts, gather, no_texts};
use layout::{Groups, security_status, switch, time_in_range};
use wire::Number;

#[repr(C)]
#[derive(Clone, Copy)]
pub struct SecurityStatus {
    pub time: i64,
    pub channel: u16,
    pub count: u32,
}

// A group of it.
#[derive(Clone, Copy)]
pub struct Switch {
    pub switch_type: u16,
    pub yes_no: u16,
}

impl Listed for SecurityStatus {
    ghost layout = { of.security_status };

    ghost variant = { is.SecurityStatus };

    ghost KIND = { type_number of.security_status };

    const KIND: u32 = Record::SECURITY_STATUS;

    ghost SIZE = { constants.SIZE };

    const SIZE: usize = security_status::SIZE;

    fn groups() -> Option<Groups> {
        Some(Groups::Switches)
    }

    fn in_range(body: &[u8]) -> bool {
        time_in_range(u64::at(body, security_status::TIME))
    }

    fn fields(body: &[u8]) -> SecurityStatus {
        SecurityStatus {
            time: i64::at(body, security_status::TIME),
            channel: u16::at(body, security_status::CHANNEL),
            count: u32::at(body, security_status::COUNT),
        }
    }

    fn gathered(body: &[u8]) -> Texts {
        gather(
            body,
            security_status::SECURITY,
            security_status::TEXTS_SIZE,
            0,
            0,
        )
    }

    fn as_record(self) -> Record {
        Record::SecurityStatus(self)
    }

    ghost kind_is = { refl };

    ghost size_is = { unfold size in refl };
}

impl Grouped for SecurityStatus {
    ghost each = { of.switches };

    ghost stride = { group_constants.WIDTH };

    fn group(body: &[u8], i: u32) -> GroupReading {
        let at = security_status::SIZE + switch::WIDTH * (i as usize);
        let switch = Switch {
            switch_type: u16::at(body, at),
            yes_no: u16::at(body, at + switch::YES_NO),
        };
        GroupReading {
            group: Group::Switch(switch),
            texts: no_texts(),
        }
    }

    ghost each_is = { refl };

    ghost stride_is = { unfold size in refl };

    ghost flat_is = { refl };
}
