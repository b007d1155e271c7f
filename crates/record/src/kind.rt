// The listed types, by their numbers. Calls take a type's number, and no `Kind`: C hands it, and a type that is not listed is read too.
ghost use Rattle.std.specs.Prelude.{◌≡◌};
ghost use Rattle.layout.specs.Layout.{named};
ghost use Rattle.record.specs.Paper.{means_kind};

use crate::Record;

#[derive(Clone, Copy, Debug, PartialEq, Eq, Hash)]
pub enum Kind {
    Heartbeat = 3,
    ChannelHeartbeat = 390095,
    Resend = 390094,
    Statistics = 390090,
    SecurityStatus = 390013,
    Snapshot = 300111,
    Index = 309011,
    VolumeIndex = 309111,
    Order = 300192,
    Trade = 300191,
}

// A number that is no listed type's.
#[derive(Clone, Copy, Debug, PartialEq, Eq, Hash)]
pub struct Unlisted;

impl TryFrom<u32> for Kind {
    type Error = Unlisted;

    ghost try_from_gives = { λ n r. means_kind r ≡ named n };

    fn try_from(kind: u32) -> Result<Kind, Unlisted> {
        match kind {
            Record::HEARTBEAT => Ok(Kind::Heartbeat),
            Record::CHANNEL_HEARTBEAT => Ok(Kind::ChannelHeartbeat),
            Record::RESEND => Ok(Kind::Resend),
            Record::STATISTICS => Ok(Kind::Statistics),
            Record::SECURITY_STATUS => Ok(Kind::SecurityStatus),
            Record::SNAPSHOT => Ok(Kind::Snapshot),
            Record::INDEX => Ok(Kind::Index),
            Record::VOLUME_INDEX => Ok(Kind::VolumeIndex),
            Record::ORDER => Ok(Kind::Order),
            Record::TRADE => Ok(Kind::Trade),
            _ => Err(Unlisted),
        }
    }
}
