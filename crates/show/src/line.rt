// A line for each record: the frame's offset, its name, and its fields in its layout's order.
use crate::Showing;
use crate::named::{Text, text_of};
use crate::value::{Character, Decimal, Time, Trimmed};
use layout::decimals::{AMOUNT, PRICE, QUANTITY};
use record::{Common, Order, Reading, Record, Resend, SecurityStatus, Trade};
use std::fmt::Write;
use std::io;

// The name of a listed type that can be refused, by its number, as each line below takes a type: it is a frame's, listed or not.
fn name(kind: u32) -> &'static str {
    match kind {
        Record::ORDER => "order",
        Record::TRADE => "trade",
        Record::SNAPSHOT => "snapshot",
        Record::INDEX => "index",
        Record::VOLUME_INDEX => "volume index",
        Record::SECURITY_STATUS => "security status",
        Record::STATISTICS => "statistics",
        Record::RESEND => "resend",
        _ => "channel heartbeat",
    }
}

// The texts of a record of a type.
#[derive(Clone, Copy)]
struct Texts<'a> {
    kind: u32,
    bytes: &'a [u8],
}

impl<'a> Texts<'a> {
    fn get(self, which: Text) -> Trimmed<'a> {
        Trimmed(text_of(self.kind, which, self.bytes))
    }
}

impl Showing {
    fn order(&mut self, at: i64, r: Order, texts: Texts) {
        let _ = writeln!(
            self.lines,
            "{at} order: channel {}, number {}, stream \"{}\", security \"{}\", source \"{}\", price {}, quantity {}, side {}, time {}, order type {}",
            r.channel,
            r.number,
            texts.get(Text::Stream),
            texts.get(Text::Security),
            texts.get(Text::Source),
            Decimal(r.order_price, PRICE),
            Decimal(r.quantity, QUANTITY),
            Character(r.side),
            Time(r.time),
            Character(r.order_type)
        );
    }

    fn trade(&mut self, at: i64, r: Trade, texts: Texts) {
        let _ = writeln!(
            self.lines,
            "{at} trade: channel {}, number {}, stream \"{}\", bid number {}, offer number {}, security \"{}\", source \"{}\", price {}, quantity {}, execution type {}, time {}",
            r.channel,
            r.number,
            texts.get(Text::Stream),
            r.bid_number,
            r.offer_number,
            texts.get(Text::Security),
            texts.get(Text::Source),
            Decimal(r.trade_price, PRICE),
            Decimal(r.quantity, QUANTITY),
            Character(r.execution),
            Time(r.time)
        );
    }

    // The common part of snapshots and indices, and the field behind it.
    fn common(&mut self, at: i64, r: Common, texts: Texts, last: &str, field: u32) {
        let _ = writeln!(
            self.lines,
            "{at} {}: time {}, channel {}, stream \"{}\", security \"{}\", source \"{}\", phase \"{}\", previous close {}, trade count {}, volume {}, amount {}, {last} {field}",
            name(texts.kind),
            Time(r.time),
            r.channel,
            texts.get(Text::Stream),
            texts.get(Text::Security),
            texts.get(Text::Source),
            texts.get(Text::Phase),
            Decimal(r.previous_close, PRICE),
            r.trade_count,
            Decimal(r.volume, QUANTITY),
            Decimal(r.amount, AMOUNT)
        );
    }

    fn security_status(&mut self, at: i64, r: SecurityStatus, texts: Texts) {
        let _ = writeln!(
            self.lines,
            "{at} security status: time {}, channel {}, security \"{}\", source \"{}\", financial status \"{}\", count {}",
            Time(r.time),
            r.channel,
            texts.get(Text::Security),
            texts.get(Text::Source),
            texts.get(Text::FinancialStatus),
            r.count
        );
    }

    fn resend(&mut self, at: i64, r: Resend, texts: Texts) {
        let _ = writeln!(
            self.lines,
            "{at} resend: resend type {}, channel {}, first {}, last {}, news id \"{}\", status {}, text \"{}\"",
            r.resend_type,
            r.channel,
            r.first_number,
            r.last_number,
            texts.get(Text::NewsId),
            r.status,
            texts.get(Text::RejectText)
        );
    }

    // The line of a record that was read from a body of len bytes.
    fn record(&mut self, at: i64, r: Record, texts: Texts, len: usize) {
        match r {
            Record::Heartbeat => {
                let _ = writeln!(self.lines, "{at} heartbeat");
            }
            Record::ChannelHeartbeat(x) => {
                let _ = writeln!(
                    self.lines,
                    "{at} channel heartbeat: channel {}, last number {}, end {}",
                    x.channel, x.last_number, x.end
                );
            }
            Record::Resend(x) => self.resend(at, x, texts),
            Record::Statistics(x) => {
                let _ = writeln!(
                    self.lines,
                    "{at} statistics: time {}, channel {}, count {}",
                    Time(x.time),
                    x.channel,
                    x.count
                );
            }
            Record::SecurityStatus(x) => self.security_status(at, x, texts),
            Record::Snapshot(x) => self.common(at, x.common, texts, "count", x.count),
            Record::Index(x) => self.common(at, x.common, texts, "count", x.count),
            Record::VolumeIndex(x) => self.common(
                at,
                x.common,
                texts,
                "stock number",
                x.stock_number,
            ),
            Record::Order(x) => self.order(at, x, texts),
            Record::Trade(x) => self.trade(at, x, texts),
            Record::Unknown(kind) => {
                let _ = writeln!(self.lines, "{at} unknown: type {kind}, body length {len}");
            }
        }
    }

    // All lines of a frame: its record's, and those below it; none are below a record that is refused.
    pub fn frame(&mut self, kind: u32, body: &[u8]) -> io::Result<()> {
        self.room()?;
        let at = self.offset.cast_signed();
        match record::read(kind, body) {
            Ok(Reading { record, texts }) => {
                let bytes = &texts.bytes;
                self.record(at, record, Texts { kind, bytes }, body.len());
                match record {
                    Record::Statistics(x) => self.groups(kind, body, x.count),
                    Record::SecurityStatus(x) => self.groups(kind, body, x.count),
                    Record::Snapshot(x) => self.entries(kind, body, x.count),
                    Record::Index(x) => self.entries(kind, body, x.count),
                    _ => Ok(()),
                }
            }
            Err(why) => {
                let _ = writeln!(
                    self.lines,
                    "{at} {}: refused {}",
                    name(kind),
                    u32::from(why)
                );
                Ok(())
            }
        }
    }
}
