// The records: each type's numbers in its struct, its texts as bytes, one behind the other in the layout's order, unused bytes zero. On a refusal all of them are zero.
ghost use Rattle.std.specs.Prelude.{◌≡◌};
ghost use Rattle.layout.specs.Layout as of;
ghost use Rattle.layout.specs.Layout.{named};
ghost use Rattle.record.specs.declared.Record.TheVariants as is;
ghost use Rattle.orizhgum.specs.Records.{judged_number, record_answer, answer_as};

use layout::TEXT_ROOM;
use record::{
    ChannelHeartbeat, Index, Listed, Order, Resend, SecurityStatus, Snapshot, Statistics, Texts,
    Trade, VolumeIndex,
};
use wire::answers::{PLAIN, UNKNOWN};

// How a body of a type reads, without its fields: plainly, by 4 or 5, or as unknown.
pub fn orizhgum_judge(kind: u32, body: &[u8]) -> u32
    ensures { result ≡ judged_number (named kind) body.now }
{
    if !record::listed(kind) {
        return UNKNOWN;
    }
    match record::judge(kind, body) {
        Ok(()) => PLAIN,
        Err(x) => u32::from(x),
    }
}

// The texts of a refusal.
const NO_TEXTS: [u8; TEXT_ROOM] = [0; TEXT_ROOM];

// What a body says. C interface: what is exported has no type parameters, so each type's answer is a struct of its own.
struct Parts<T> {
    answer: u32,
    numbers: T,
    texts: [u8; TEXT_ROOM],
}

// A body of a type, judged; a refusal has the numbers of no bytes.
fn told<T: Listed>(body: &[u8]) -> Parts<T>
    ensures { answer_as result.answer (T.variant result.numbers) result.texts ≡ record_answer T.layout body.now }
{
    match T::judge(body) {
        Ok(()) => {
            let Texts { bytes, .. } = T::texts(body);
            Parts {
                answer: PLAIN,
                numbers: T::numbers(body),
                texts: bytes,
            }
        }
        Err(x) => Parts {
            answer: u32::from(x),
            numbers: T::numbers(&body[0..0]),
            texts: NO_TEXTS,
        },
    }
}

#[repr(C)]
#[derive(Clone, Copy)]
pub struct OrderAnswer {
    pub answer: u32,
    pub numbers: Order,
    pub texts: [u8; TEXT_ROOM],
}

pub fn orizhgum_order(body: &[u8]) -> OrderAnswer
    ensures { answer_as result.answer (is.Order result.numbers) result.texts ≡ record_answer of.order body.now }
{
    let Parts {
        answer,
        numbers,
        texts,
    } = told(body);
    OrderAnswer {
        answer,
        numbers,
        texts,
    }
}

#[repr(C)]
#[derive(Clone, Copy)]
pub struct TradeAnswer {
    pub answer: u32,
    pub numbers: Trade,
    pub texts: [u8; TEXT_ROOM],
}

pub fn orizhgum_trade(body: &[u8]) -> TradeAnswer
    ensures { answer_as result.answer (is.Trade result.numbers) result.texts ≡ record_answer of.trade body.now }
{
    let Parts {
        answer,
        numbers,
        texts,
    } = told(body);
    TradeAnswer {
        answer,
        numbers,
        texts,
    }
}

#[repr(C)]
#[derive(Clone, Copy)]
pub struct ChannelHeartbeatAnswer {
    pub answer: u32,
    pub numbers: ChannelHeartbeat,
    pub texts: [u8; TEXT_ROOM],
}

pub fn orizhgum_channel_heartbeat(body: &[u8]) -> ChannelHeartbeatAnswer
    ensures { answer_as result.answer (is.ChannelHeartbeat result.numbers) result.texts ≡ record_answer of.channel_heartbeat body.now }
{
    let Parts {
        answer,
        numbers,
        texts,
    } = told(body);
    ChannelHeartbeatAnswer {
        answer,
        numbers,
        texts,
    }
}

#[repr(C)]
#[derive(Clone, Copy)]
pub struct ResendAnswer {
    pub answer: u32,
    pub numbers: Resend,
    pub texts: [u8; TEXT_ROOM],
}

pub fn orizhgum_resend(body: &[u8]) -> ResendAnswer
    ensures { answer_as result.answer (is.Resend result.numbers) result.texts ≡ record_answer of.resend body.now }
{
    let Parts {
        answer,
        numbers,
        texts,
    } = told(body);
    ResendAnswer {
        answer,
        numbers,
        texts,
    }
}

#[repr(C)]
#[derive(Clone, Copy)]
pub struct SnapshotAnswer {
    pub answer: u32,
    pub numbers: Snapshot,
    pub texts: [u8; TEXT_ROOM],
}

pub fn orizhgum_snapshot(body: &[u8]) -> SnapshotAnswer
    ensures { answer_as result.answer (is.Snapshot result.numbers) result.texts ≡ record_answer of.snapshot body.now }
{
    let Parts {
        answer,
        numbers,
        texts,
    } = told(body);
    SnapshotAnswer {
        answer,
        numbers,
        texts,
    }
}

#[repr(C)]
#[derive(Clone, Copy)]
pub struct IndexAnswer {
    pub answer: u32,
    pub numbers: Index,
    pub texts: [u8; TEXT_ROOM],
}

pub fn orizhgum_index(body: &[u8]) -> IndexAnswer
    ensures { answer_as result.answer (is.Index result.numbers) result.texts ≡ record_answer of.index body.now }
{
    let Parts {
        answer,
        numbers,
        texts,
    } = told(body);
    IndexAnswer {
        answer,
        numbers,
        texts,
    }
}

#[repr(C)]
#[derive(Clone, Copy)]
pub struct VolumeIndexAnswer {
    pub answer: u32,
    pub numbers: VolumeIndex,
    pub texts: [u8; TEXT_ROOM],
}

pub fn orizhgum_volume_index(body: &[u8]) -> VolumeIndexAnswer
    ensures { answer_as result.answer (is.VolumeIndex result.numbers) result.texts ≡ record_answer of.volume_index body.now }
{
    let Parts {
        answer,
        numbers,
        texts,
    } = told(body);
    VolumeIndexAnswer {
        answer,
        numbers,
        texts,
    }
}

#[repr(C)]
#[derive(Clone, Copy)]
pub struct StatisticsAnswer {
    pub answer: u32,
    pub numbers: Statistics,
    pub texts: [u8; TEXT_ROOM],
}

pub fn orizhgum_statistics(body: &[u8]) -> StatisticsAnswer
    ensures { answer_as result.answer (is.Statistics result.numbers) result.texts ≡ record_answer of.statistics body.now }
{
    let Parts {
        answer,
        numbers,
        texts,
    } = told(body);
    StatisticsAnswer {
        answer,
        numbers,
        texts,
    }
}

#[repr(C)]
#[derive(Clone, Copy)]
pub struct SecurityStatusAnswer {
    pub answer: u32,
    pub numbers: SecurityStatus,
    pub texts: [u8; TEXT_ROOM],
}

pub fn orizhgum_security_status(body: &[u8]) -> SecurityStatusAnswer
    ensures { answer_as result.answer (is.SecurityStatus result.numbers) result.texts ≡ record_answer of.security_status body.now }
{
    let Parts {
        answer,
        numbers,
        texts,
    } = told(body);
    SecurityStatusAnswer {
        answer,
        numbers,
        texts,
    }
}
