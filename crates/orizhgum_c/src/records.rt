// For C: the records.
ghost use Rattle.std.specs.Prelude.{◌≡◌};
ghost use Rattle.layout.specs.Layout as of;
ghost use Rattle.layout.specs.Layout.{named};
ghost use Rattle.record.specs.declared.Record.TheVariants as is;
ghost use Rattle.orizhgum.specs.Records.{judged_number, record_answer, answer_as};

use orizhgum::records::{
    ChannelHeartbeatAnswer, IndexAnswer, OrderAnswer, ResendAnswer, SecurityStatusAnswer,
    SnapshotAnswer, StatisticsAnswer, TradeAnswer, VolumeIndexAnswer,
};

#[unsafe(no_mangle)]
pub extern "C" fn orizhgum_judge(kind: u32, body: &[u8]) -> u32
    ensures { result ≡ judged_number (named kind) body.now }
{
    orizhgum::records::orizhgum_judge(kind, body)
}

#[unsafe(no_mangle)]
pub extern "C" fn orizhgum_order(body: &[u8]) -> OrderAnswer
    ensures { answer_as result.answer (is.Order result.numbers) result.texts ≡ record_answer of.order body.now }
{
    orizhgum::records::orizhgum_order(body)
}

#[unsafe(no_mangle)]
pub extern "C" fn orizhgum_trade(body: &[u8]) -> TradeAnswer
    ensures { answer_as result.answer (is.Trade result.numbers) result.texts ≡ record_answer of.trade body.now }
{
    orizhgum::records::orizhgum_trade(body)
}

#[unsafe(no_mangle)]
pub extern "C" fn orizhgum_channel_heartbeat(body: &[u8]) -> ChannelHeartbeatAnswer
    ensures { answer_as result.answer (is.ChannelHeartbeat result.numbers) result.texts ≡ record_answer of.channel_heartbeat body.now }
{
    orizhgum::records::orizhgum_channel_heartbeat(body)
}

#[unsafe(no_mangle)]
pub extern "C" fn orizhgum_resend(body: &[u8]) -> ResendAnswer
    ensures { answer_as result.answer (is.Resend result.numbers) result.texts ≡ record_answer of.resend body.now }
{
    orizhgum::records::orizhgum_resend(body)
}

#[unsafe(no_mangle)]
pub extern "C" fn orizhgum_snapshot(body: &[u8]) -> SnapshotAnswer
    ensures { answer_as result.answer (is.Snapshot result.numbers) result.texts ≡ record_answer of.snapshot body.now }
{
    orizhgum::records::orizhgum_snapshot(body)
}

#[unsafe(no_mangle)]
pub extern "C" fn orizhgum_index(body: &[u8]) -> IndexAnswer
    ensures { answer_as result.answer (is.Index result.numbers) result.texts ≡ record_answer of.index body.now }
{
    orizhgum::records::orizhgum_index(body)
}

#[unsafe(no_mangle)]
pub extern "C" fn orizhgum_volume_index(body: &[u8]) -> VolumeIndexAnswer
    ensures { answer_as result.answer (is.VolumeIndex result.numbers) result.texts ≡ record_answer of.volume_index body.now }
{
    orizhgum::records::orizhgum_volume_index(body)
}

#[unsafe(no_mangle)]
pub extern "C" fn orizhgum_statistics(body: &[u8]) -> StatisticsAnswer
    ensures { answer_as result.answer (is.Statistics result.numbers) result.texts ≡ record_answer of.statistics body.now }
{
    orizhgum::records::orizhgum_statistics(body)
}

#[unsafe(no_mangle)]
pub extern "C" fn orizhgum_security_status(body: &[u8]) -> SecurityStatusAnswer
    ensures { answer_as result.answer (is.SecurityStatus result.numbers) result.texts ≡ record_answer of.security_status body.now }
{
    orizhgum::records::orizhgum_security_status(body)
}
