// The writer: the frame of a record, its texts and its groups in wire layout, to the start of a lent output. A type that has no texts or no groups takes none.
ghost use Rattle.std.specs.Prelude.{◌≡◌};
ghost use Rattle.record.specs.Paper.{means_record};
ghost use Rattle.record.specs.declared.Record.TheVariants as is;
ghost use Rattle.writer.specs.Paper as writer_paper;
ghost use Rattle.writer.specs.Write.{write, write_leaves};
ghost use Rattle.orizhgum.specs.Written.{write_answer};

use record::{
    ChannelHeartbeat, Heartbeat, Index, Order, Resend, SecurityStatus, Snapshot, Statistics, Trade,
    VolumeIndex,
};
use wire::answers::PLAIN;
use writer::{Refusal, write_as};

// How many bytes were written; 0 where it is refused, and the output is as it stood.
#[repr(C)]
#[derive(Clone, Copy)]
pub struct WriteAnswer {
    pub answer: u32,
    pub written: usize,
}

impl From<Result<usize, Refusal>> for WriteAnswer {
    ghost from_gives = { λ r a. a ≡ write_answer (writer_paper.means_written r) };

    fn from(written: Result<usize, Refusal>) -> WriteAnswer {
        match written {
            Ok(written) => WriteAnswer {
                answer: PLAIN,
                written,
            },
            Err(x) => WriteAnswer {
                answer: u32::from(x),
                written: 0,
            },
        }
    }
}

// C interface: what is exported has no type parameters, so each type has a call of its own.
pub fn orizhgum_write_order(
    numbers: Order,
    texts: &[u8],
    groups: &[u8],
    out: &mut [u8],
) -> WriteAnswer
    ensures value { result ≡ write_answer (write (means_record (is.Order numbers)) texts.now groups.now out.old) }
    ensures out_after { out.new ≡ write_leaves (means_record (is.Order numbers)) texts.now groups.now out.old }
{
    write_as(numbers, texts, groups, out).into()
}

pub fn orizhgum_write_trade(
    numbers: Trade,
    texts: &[u8],
    groups: &[u8],
    out: &mut [u8],
) -> WriteAnswer
    ensures value { result ≡ write_answer (write (means_record (is.Trade numbers)) texts.now groups.now out.old) }
    ensures out_after { out.new ≡ write_leaves (means_record (is.Trade numbers)) texts.now groups.now out.old }
{
    write_as(numbers, texts, groups, out).into()
}

pub fn orizhgum_write_channel_heartbeat(
    numbers: ChannelHeartbeat,
    texts: &[u8],
    groups: &[u8],
    out: &mut [u8],
) -> WriteAnswer
    ensures value { result ≡ write_answer (write (means_record (is.ChannelHeartbeat numbers)) texts.now groups.now out.old) }
    ensures out_after { out.new ≡ write_leaves (means_record (is.ChannelHeartbeat numbers)) texts.now groups.now out.old }
{
    write_as(numbers, texts, groups, out).into()
}

pub fn orizhgum_write_resend(
    numbers: Resend,
    texts: &[u8],
    groups: &[u8],
    out: &mut [u8],
) -> WriteAnswer
    ensures value { result ≡ write_answer (write (means_record (is.Resend numbers)) texts.now groups.now out.old) }
    ensures out_after { out.new ≡ write_leaves (means_record (is.Resend numbers)) texts.now groups.now out.old }
{
    write_as(numbers, texts, groups, out).into()
}

pub fn orizhgum_write_snapshot(
    numbers: Snapshot,
    texts: &[u8],
    groups: &[u8],
    out: &mut [u8],
) -> WriteAnswer
    ensures value { result ≡ write_answer (write (means_record (is.Snapshot numbers)) texts.now groups.now out.old) }
    ensures out_after { out.new ≡ write_leaves (means_record (is.Snapshot numbers)) texts.now groups.now out.old }
{
    write_as(numbers, texts, groups, out).into()
}

pub fn orizhgum_write_index(
    numbers: Index,
    texts: &[u8],
    groups: &[u8],
    out: &mut [u8],
) -> WriteAnswer
    ensures value { result ≡ write_answer (write (means_record (is.Index numbers)) texts.now groups.now out.old) }
    ensures out_after { out.new ≡ write_leaves (means_record (is.Index numbers)) texts.now groups.now out.old }
{
    write_as(numbers, texts, groups, out).into()
}

pub fn orizhgum_write_volume_index(
    numbers: VolumeIndex,
    texts: &[u8],
    groups: &[u8],
    out: &mut [u8],
) -> WriteAnswer
    ensures value { result ≡ write_answer (write (means_record (is.VolumeIndex numbers)) texts.now groups.now out.old) }
    ensures out_after { out.new ≡ write_leaves (means_record (is.VolumeIndex numbers)) texts.now groups.now out.old }
{
    write_as(numbers, texts, groups, out).into()
}

pub fn orizhgum_write_statistics(
    numbers: Statistics,
    texts: &[u8],
    groups: &[u8],
    out: &mut [u8],
) -> WriteAnswer
    ensures value { result ≡ write_answer (write (means_record (is.Statistics numbers)) texts.now groups.now out.old) }
    ensures out_after { out.new ≡ write_leaves (means_record (is.Statistics numbers)) texts.now groups.now out.old }
{
    write_as(numbers, texts, groups, out).into()
}

pub fn orizhgum_write_security_status(
    numbers: SecurityStatus,
    texts: &[u8],
    groups: &[u8],
    out: &mut [u8],
) -> WriteAnswer
    ensures value { result ≡ write_answer (write (means_record (is.SecurityStatus numbers)) texts.now groups.now out.old) }
    ensures out_after { out.new ≡ write_leaves (means_record (is.SecurityStatus numbers)) texts.now groups.now out.old }
{
    write_as(numbers, texts, groups, out).into()
}

pub fn orizhgum_write_heartbeat(texts: &[u8], groups: &[u8], out: &mut [u8]) -> WriteAnswer
    ensures value { result ≡ write_answer (write (means_record is.Heartbeat) texts.now groups.now out.old) }
    ensures out_after { out.new ≡ write_leaves (means_record is.Heartbeat) texts.now groups.now out.old }
{
    write_as(Heartbeat, texts, groups, out).into()
}
