// The groups of a body: by position, and all of them as a part of it.
ghost use Rattle.std.specs.Prelude.{◌≡◌, ℕ, false, Ok, Some, ◌+◌, ◌*◌, ◌≤◌, length};
ghost use Rattle.wire.specs.Answer.{accepted};
ghost use Rattle.layout.specs.Layout as of;
ghost use Rattle.layout.specs.Layout.{size, values, texts, behind, groups};
ghost use Rattle.record.specs.Asked.{with_texts, found};
ghost use Rattle.record.specs.Record.{group_as, group_of, groups_of};
ghost use Rattle.record.specs.Paper.{means_group_reading};

use crate::body::Listed;
use crate::security_status::Switch;
use crate::statistics::Stream;
use crate::texts::Texts;
use crate::{
    ChannelHeartbeat, Heartbeat, Index, Kind, Order, Record, Resend, SecurityStatus, Snapshot,
    Statistics, Trade, Unlisted, VolumeIndex, judge,
};
use layout::{Refusal, width};
use wire::Number;

// A group of a 390090, or of a 390013.
#[derive(Clone, Copy)]
pub enum Group {
    Stream(Stream),
    Switch(Switch),
}

// A group with its texts.
#[derive(Clone, Copy)]
pub struct GroupReading {
    pub group: Group,
    pub texts: Texts,
}

// A listed type whose groups are asked for by position.
pub(crate) trait Grouped: Listed {
    ghost each: { of.Group };

    // The bytes of a group's fields.
    ghost stride: { ℕ };

    // Group i of a body that has it.
    fn group(body: &[u8], i: u32) -> GroupReading
        requires { Self.SIZE + stride * i + stride ≤ length body.now }
        ensures { means_group_reading (Ok (Some result)) ≡ with_texts (accepted (found (values each.fields body.now (Self.SIZE + stride * i)))) (texts each.fields body.now (Self.SIZE + stride * i)) };

    // Group i, from 0; none where it is not below the count.
    final fn group_at(body: &[u8], i: u32) -> Result<Option<GroupReading>, Refusal>
        ensures { means_group_reading result ≡ group_as Self.layout body.now i }
    {
        Self::judge(body)?;
        if u32::at(body, Self::SIZE - width::COUNT) <= i {
            return Ok(None);
        }
        Ok(Some(Self::group(body, i)))
    }

    ghost each_is: { behind Self.layout ≡ groups each };

    ghost stride_is: { size each.fields ≡ stride };

    ghost flat_is: { each.shows ≡ false };
}

// Group i, from 0; none where it is not below the count, and for a type without groups.
pub fn group_of(kind: u32, body: &[u8], i: u32) -> Result<Option<GroupReading>, Refusal>
    ensures { means_group_reading result ≡ group_of kind body.now i }
{
    // By the numbers: a `_` over the kinds doesn't tell a proof which ones are left.
    match kind {
        Record::STATISTICS => Statistics::group_at(body, i),
        Record::SECURITY_STATUS => SecurityStatus::group_at(body, i),
        _ => {
            judge(kind, body)?;
            Ok(None)
        }
    }
}

// The groups or entries of a body as a part of it, without the tail; the empty part where there are none, or the body is refused.
pub fn groups_of(kind: u32, body: &[u8]) -> &[u8]
    ensures { result.now ≡ groups_of kind body.now }
{
    match Kind::try_from(kind) {
        Ok(Kind::Heartbeat) => Heartbeat::behind(body),
        Ok(Kind::ChannelHeartbeat) => ChannelHeartbeat::behind(body),
        Ok(Kind::Resend) => Resend::behind(body),
        Ok(Kind::Statistics) => Statistics::behind(body),
        Ok(Kind::SecurityStatus) => SecurityStatus::behind(body),
        Ok(Kind::Snapshot) => Snapshot::behind(body),
        Ok(Kind::Index) => Index::behind(body),
        Ok(Kind::VolumeIndex) => VolumeIndex::behind(body),
        Ok(Kind::Order) => Order::behind(body),
        Ok(Kind::Trade) => Trade::behind(body),
        Err(Unlisted) => &body[0..0],
    }
}
