// Typed records of the ten listed types: a frame's type and body in, a record out, or refusal 4 or 5.
#![tactic(auto)]

ghost use Rattle.std.specs.Prelude.{◌≡◌};
ghost use Rattle.layout.specs.Layout.{named};
ghost use Rattle.layout.specs.Paper as layout_paper;
ghost use Rattle.record.specs.Asked.{judge};
ghost use Rattle.record.specs.Record.{read_body, is_listed};
ghost use Rattle.record.specs.Paper.{means_reading};

mod body;
mod channel_heartbeat;
mod common;
mod framed;
mod group;
mod heartbeat;
mod index;
mod kind;
mod order;
mod resend;
mod security_status;
mod snapshot;
mod statistics;
mod texts;
mod trade;
mod volume_index;

pub use body::Listed;
pub use channel_heartbeat::ChannelHeartbeat;
pub use common::Common;
pub use framed::{FrameRefusal, read_frame};
pub use group::{Group, GroupReading, group_of, groups_of};
pub use heartbeat::Heartbeat;
pub use index::Index;
pub use kind::{Kind, Unlisted};
pub use layout::Refusal;
pub use order::Order;
pub use resend::Resend;
pub use security_status::{SecurityStatus, Switch};
pub use snapshot::Snapshot;
pub use statistics::{Statistics, Stream};
pub use texts::Texts;
use texts::no_texts;
pub use trade::Trade;
pub use volume_index::VolumeIndex;

#[derive(Clone, Copy)]
pub enum Record {
    Heartbeat,
    ChannelHeartbeat(ChannelHeartbeat),
    Resend(Resend),
    Statistics(Statistics),
    SecurityStatus(SecurityStatus),
    Snapshot(Snapshot),
    Index(Index),
    VolumeIndex(VolumeIndex),
    Order(Order),
    Trade(Trade),
    Unknown(u32),
}

// The type numbers of the listed types.
impl Record {
    pub const HEARTBEAT: u32 = Kind::Heartbeat as u32;

    pub const CHANNEL_HEARTBEAT: u32 = Kind::ChannelHeartbeat as u32;

    pub const RESEND: u32 = Kind::Resend as u32;

    pub const STATISTICS: u32 = Kind::Statistics as u32;

    pub const SECURITY_STATUS: u32 = Kind::SecurityStatus as u32;

    pub const SNAPSHOT: u32 = Kind::Snapshot as u32;

    pub const INDEX: u32 = Kind::Index as u32;

    pub const VOLUME_INDEX: u32 = Kind::VolumeIndex as u32;

    pub const ORDER: u32 = Kind::Order as u32;

    pub const TRADE: u32 = Kind::Trade as u32;
}

// What a body reads as: the record, with its texts.
#[derive(Clone, Copy)]
pub struct Reading {
    pub record: Record,
    pub texts: Texts,
}

// Whether a type is one of the ten.
pub fn listed(kind: u32) -> bool
    ensures { result ≡ is_listed (named kind) }
{
    Kind::try_from(kind).is_ok()
}

// Three matches over the ten, here, in `read` and in `groups_of`: each arm is of another type, and a macro that writes them is no plainer.

// How a body of a type is judged: 4 where it lacks bytes of its layout, else 5 where a field is out of range. An unlisted type is accepted.
pub fn judge(kind: u32, body: &[u8]) -> Result<(), Refusal>
    ensures { layout_paper.means_verdict result ≡ judge kind body.now }
{
    match Kind::try_from(kind) {
        Ok(Kind::Heartbeat) => Heartbeat::judge(body),
        Ok(Kind::ChannelHeartbeat) => ChannelHeartbeat::judge(body),
        Ok(Kind::Resend) => Resend::judge(body),
        Ok(Kind::Statistics) => Statistics::judge(body),
        Ok(Kind::SecurityStatus) => SecurityStatus::judge(body),
        Ok(Kind::Snapshot) => Snapshot::judge(body),
        Ok(Kind::Index) => Index::judge(body),
        Ok(Kind::VolumeIndex) => VolumeIndex::judge(body),
        Ok(Kind::Order) => Order::judge(body),
        Ok(Kind::Trade) => Trade::judge(body),
        Err(Unlisted) => Ok(()),
    }
}

// The record of a type and a body, with its texts; or refusal 4 or 5. An unlisted type is answered as unknown.
pub fn read(kind: u32, body: &[u8]) -> Result<Reading, Refusal>
    ensures { means_reading result ≡ read_body kind body.now }
{
    match Kind::try_from(kind) {
        Ok(Kind::Heartbeat) => Heartbeat::read(body),
        Ok(Kind::ChannelHeartbeat) => ChannelHeartbeat::read(body),
        Ok(Kind::Resend) => Resend::read(body),
        Ok(Kind::Statistics) => Statistics::read(body),
        Ok(Kind::SecurityStatus) => SecurityStatus::read(body),
        Ok(Kind::Snapshot) => Snapshot::read(body),
        Ok(Kind::Index) => Index::read(body),
        Ok(Kind::VolumeIndex) => VolumeIndex::read(body),
        Ok(Kind::Order) => Order::read(body),
        Ok(Kind::Trade) => Trade::read(body),
        Err(Unlisted) => Ok(Reading {
            record: Record::Unknown(kind),
            texts: no_texts(),
        }),
    }
}
