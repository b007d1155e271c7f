// Frames from records, texts and groups.
#![tactic(auto)]

ghost use Rattle.std.specs.Prelude.{◌≡◌, ◌+◌, ◌≤◌, None, length};
ghost use Rattle.frame.specs.Framing.{body_limit};
ghost use Rattle.record.specs.Paper.{counted, means_record};
ghost use Rattle.writer.specs.Paper.{writer_refusal, body_refused, means_written};
ghost use Rattle.writer.specs.Write.{room_for_frame, write, write_leaves};

mod store;

use crate::store::seal;
use bodies::Body;
use frame::Frame;
use record::{Heartbeat, Record};
use wire::answers;

// Why nothing is written: texts or groups that aren't exactly the stated fields; a field out of range, or a type that is not listed; a body above the limit; an output too short.
#[derive(Clone, Copy)]
pub enum Refusal {
    NotItsLayout,
    OutOfRange,
    TooLong,
    OutputShort,
}

// Its number.
impl From<Refusal> for u32 {
    ghost from_gives = { λ x n. n ≡ writer_refusal x };

    fn from(x: Refusal) -> u32 {
        match x {
            Refusal::NotItsLayout => answers::NOT_ITS_LAYOUT,
            Refusal::OutOfRange => answers::OUT_OF_RANGE,
            Refusal::TooLong => answers::TOO_LONG,
            Refusal::OutputShort => answers::OUTPUT_SHORT,
        }
    }
}

impl From<layout::Refusal> for Refusal {
    ghost from_gives = { λ x y. y ≡ body_refused x };

    fn from(x: layout::Refusal) -> Refusal {
        match x {
            layout::Refusal::NotItsLayout => Refusal::NotItsLayout,
            layout::Refusal::OutOfRange => Refusal::OutOfRange,
        }
    }
}

// How many bytes the frame of a body of fields and groups has, for an output of room bytes; or 2, then 6.
fn fitted(size: usize, groups: usize, room: usize) -> Result<usize, Refusal>
    requires { size ≤ body_limit }
    ensures { means_written result ≡ room_for_frame (size + groups) room }
{
    if Frame::BODY_LIMIT - size < groups {
        return Err(Refusal::TooLong);
    }
    let total = Frame::HEADER + (size + groups) + Frame::CHECKSUM;
    if room < total {
        return Err(Refusal::OutputShort);
    }
    Ok(total)
}

// The groups of a type's record, which are none where the type has none. So the compiler sees that there is nothing to copy: a heartbeat
// took twice as long without it.
fn own<T: Body>(groups: &[u8]) -> &[u8]
    requires { counted T.layout ≡ None → length groups.now ≡ 0 }
    ensures { result.now ≡ groups.now }
{
    match T::groups() {
        Some(_) => groups,
        None => &groups[0..0],
    }
}

// Writes the frame of a record of one type, as `write` does.
// Texts and groups stay two slices, and no struct of both: C's calls hand them so (`orizhgum_write_order` and its like).
pub fn write_as<T: Body>(
    r: T,
    texts: &[u8],
    groups: &[u8],
    out: &mut [u8],
) -> Result<usize, Refusal>
    ensures result_value { means_written result ≡ write (means_record (T.variant r)) texts.now groups.now out.old }
    ensures out_after { out.new ≡ write_leaves (means_record (T.variant r)) texts.now groups.now out.old }
{
    r.verdict(texts, groups)?;
    let total = fitted(T::SIZE, groups.len(), out.len())?;
    r.put(texts, &mut out[Frame::HEADER..Frame::HEADER + T::SIZE]);
    seal(T::KIND, T::SIZE, own::<T>(groups), out);
    Ok(total)
}

// Writes the frame of a record, its texts and its groups to the start of the output, and answers its length; a refusal leaves every byte as it stood.
pub fn write(record: Record, texts: &[u8], groups: &[u8], out: &mut [u8]) -> Result<usize, Refusal>
    ensures result_value { means_written result ≡ write (means_record «record») texts.now groups.now out.old }
    ensures out_after { out.new ≡ write_leaves (means_record «record») texts.now groups.now out.old }
{
    match record {
        Record::Heartbeat => write_as(Heartbeat, texts, groups, out),
        Record::ChannelHeartbeat(r) => write_as(r, texts, groups, out),
        Record::Resend(r) => write_as(r, texts, groups, out),
        Record::Statistics(r) => write_as(r, texts, groups, out),
        Record::SecurityStatus(r) => write_as(r, texts, groups, out),
        Record::Snapshot(r) => write_as(r, texts, groups, out),
        Record::Index(r) => write_as(r, texts, groups, out),
        Record::VolumeIndex(r) => write_as(r, texts, groups, out),
        Record::Order(r) => write_as(r, texts, groups, out),
        Record::Trade(r) => write_as(r, texts, groups, out),
        Record::Unknown(_) => Err(Refusal::OutOfRange),
    }
}
