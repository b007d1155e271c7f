// For C: the writer.
ghost use Rattle.std.specs.Prelude.{◌≡◌};
ghost use Rattle.record.specs.Paper.{means_record};
ghost use Rattle.record.specs.declared.Record.TheVariants as is;
ghost use Rattle.writer.specs.Write.{write, write_leaves};
ghost use Rattle.orizhgum.specs.Written.{write_answer};

use orizhgum::written::WriteAnswer;
use record::{
    ChannelHeartbeat, Index, Order, Resend, SecurityStatus, Snapshot, Statistics, Trade,
    VolumeIndex,
};

#[unsafe(no_mangle)]
pub extern "C" fn orizhgum_write_order(
    numbers: Order,
    texts: &[u8],
    groups: &[u8],
    out: &mut [u8],
) -> WriteAnswer
    ensures value { result ≡ write_answer (write (means_record (is.Order numbers)) texts.now groups.now out.old) }
    ensures out_after { out.new ≡ write_leaves (means_record (is.Order numbers)) texts.now groups.now out.old }
{
    orizhgum::written::orizhgum_write_order(numbers, texts, groups, out)
}

#[unsafe(no_mangle)]
pub extern "C" fn orizhgum_write_trade(
    numbers: Trade,
    texts: &[u8],
    groups: &[u8],
    out: &mut [u8],
) -> WriteAnswer
    ensures value { result ≡ write_answer (write (means_record (is.Trade numbers)) texts.now groups.now out.old) }
    ensures out_after { out.new ≡ write_leaves (means_record (is.Trade numbers)) texts.now groups.now out.old }
{
    orizhgum::written::orizhgum_write_trade(numbers, texts, groups, out)
}

#[unsafe(no_mangle)]
pub extern "C" fn orizhgum_write_channel_heartbeat(
    numbers: ChannelHeartbeat,
    texts: &[u8],
    groups: &[u8],
    out: &mut [u8],
) -> WriteAnswer
    ensures value { result ≡ write_answer (write (means_record (is.ChannelHeartbeat numbers)) texts.now groups.now out.old) }
    ensures out_after { out.new ≡ write_leaves (means_record (is.ChannelHeartbeat numbers)) texts.now groups.now out.old }
{
    orizhgum::written::orizhgum_write_channel_heartbeat(numbers, texts, groups, out)
}

#[unsafe(no_mangle)]
pub extern "C" fn orizhgum_write_resend(
    numbers: Resend,
    texts: &[u8],
    groups: &[u8],
    out: &mut [u8],
) -> WriteAnswer
    ensures value { result ≡ write_answer (write (means_record (is.Resend numbers)) texts.now groups.now out.old) }
    ensures out_after { out.new ≡ write_leaves (means_record (is.Resend numbers)) texts.now groups.now out.old }
{
    orizhgum::written::orizhgum_write_resend(numbers, texts, groups, out)
}

#[unsafe(no_mangle)]
pub extern "C" fn orizhgum_write_snapshot(
    numbers: Snapshot,
    texts: &[u8],
    groups: &[u8],
    out: &mut [u8],
) -> WriteAnswer
    ensures value { result ≡ write_answer (write (means_record (is.Snapshot numbers)) texts.now groups.now out.old) }
    ensures out_after { out.new ≡ write_leaves (means_record (is.Snapshot numbers)) texts.now groups.now out.old }
{
    orizhgum::written::orizhgum_write_snapshot(numbers, texts, groups, out)
}

#[unsafe(no_mangle)]
pub extern "C" fn orizhgum_write_index(
    numbers: Index,
    texts: &[u8],
    groups: &[u8],
    out: &mut [u8],
) -> WriteAnswer
    ensures value { result ≡ write_answer (write (means_record (is.Index numbers)) texts.now groups.now out.old) }
    ensures out_after { out.new ≡ write_leaves (means_record (is.Index numbers)) texts.now groups.now out.old }
{
    orizhgum::written::orizhgum_write_index(numbers, texts, groups, out)
}

#[unsafe(no_mangle)]
pub extern "C" fn orizhgum_write_volume_index(
    numbers: VolumeIndex,
    texts: &[u8],
    groups: &[u8],
    out: &mut [u8],
) -> WriteAnswer
    ensures value { result ≡ write_answer (write (means_record (is.VolumeIndex numbers)) texts.now groups.now out.old) }
    ensures out_after { out.new ≡ write_leaves (means_record (is.VolumeIndex numbers)) texts.now groups.now out.old }
{
    orizhgum::written::orizhgum_write_volume_index(numbers, texts, groups, out)
}

#[unsafe(no_mangle)]
pub extern "C" fn orizhgum_write_statistics(
    numbers: Statistics,
    texts: &[u8],
    groups: &[u8],
    out: &mut [u8],
) -> WriteAnswer
    ensures value { result ≡ write_answer (write (means_record (is.Statistics numbers)) texts.now groups.now out.old) }
    ensures out_after { out.new ≡ write_leaves (means_record (is.Statistics numbers)) texts.now groups.now out.old }
{
    orizhgum::written::orizhgum_write_statistics(numbers, texts, groups, out)
}

#[unsafe(no_mangle)]
pub extern "C" fn orizhgum_write_security_status(
    numbers: SecurityStatus,
    texts: &[u8],
    groups: &[u8],
    out: &mut [u8],
) -> WriteAnswer
    ensures value { result ≡ write_answer (write (means_record (is.SecurityStatus numbers)) texts.now groups.now out.old) }
    ensures out_after { out.new ≡ write_leaves (means_record (is.SecurityStatus numbers)) texts.now groups.now out.old }
{
    orizhgum::written::orizhgum_write_security_status(numbers, texts, groups, out)
}

#[unsafe(no_mangle)]
pub extern "C" fn orizhgum_write_heartbeat(
    texts: &[u8],
    groups: &[u8],
    out: &mut [u8],
) -> WriteAnswer
    ensures value { result ≡ write_answer (write (means_record is.Heartbeat) texts.now groups.now out.old) }
    ensures out_after { out.new ≡ write_leaves (means_record is.Heartbeat) texts.now groups.now out.old }
{
    orizhgum::written::orizhgum_write_heartbeat(texts, groups, out)
}
