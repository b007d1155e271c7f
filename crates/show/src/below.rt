// The lines below a record's: its groups, and its entries with their shown quantities.
use crate::Showing;
use crate::named::{Text, group_text_of, span};
use crate::value::{Decimal, Trimmed};
use entries::{Cursor, Entry, Says};
use layout::decimals::{ENTRY_PRICE, QUANTITY};
use layout::{TEXT_ROOM, width};
use record::Record;
use std::fmt::Write;
use std::io;
use wire::Number;

// The texts of a group of a statistics body.
fn texts_of(g: &[u8]) -> [u8; TEXT_ROOM] {
    let mut texts = [0u8; TEXT_ROOM];
    wire::copy(
        &mut texts,
        0,
        span(g, layout::stream::STREAM, width::STREAM),
    );
    wire::copy(
        &mut texts,
        width::STREAM,
        span(g, layout::stream::PHASE, width::PHASE),
    );
    texts
}

// The shown quantities of an entry of a body of a type, by its number here and below, that stands from an offset up to another.
fn shown(kind: u32, body: &[u8], from: usize, to: usize) -> &[u8] {
    match kind {
        Record::SNAPSHOT => body
            .get(from..to)
            .and_then(|entry| entry.get(layout::entry::WIDTH..))
            .unwrap_or_default(),
        _ => &[],
    }
}

impl Showing {
    // Group i of a statistics body.
    fn stream(&mut self, kind: u32, i: usize, g: &[u8]) {
        let texts = texts_of(g);
        let _ = writeln!(
            self.lines,
            "  group {i}: stream \"{}\", stock number {}, phase \"{}\"",
            Trimmed(group_text_of(kind, Text::Stream, &texts)),
            u32::at(g, layout::stream::STOCK_NUMBER),
            Trimmed(group_text_of(kind, Text::Phase, &texts))
        );
    }

    // Group i of a security status.
    fn switch(&mut self, i: usize, g: &[u8]) {
        let _ = writeln!(
            self.lines,
            "  group {i}: switch type {}, yes/no {}",
            u16::at(g, layout::switch::SWITCH_TYPE),
            u16::at(g, layout::switch::YES_NO)
        );
    }

    // The groups of a statistics body or a security status, one behind the other.
    pub fn groups(&mut self, kind: u32, body: &[u8], count: u32) -> io::Result<()> {
        let all = record::groups_of(kind, body);
        let is_statistics = kind == Record::STATISTICS;
        let width = if is_statistics {
            layout::stream::WIDTH
        } else {
            layout::switch::WIDTH
        };
        for (i, g) in all.chunks_exact(width).take(count as usize).enumerate() {
            self.room()?;
            if is_statistics {
                self.stream(kind, i, g);
            } else {
                self.switch(i, g);
            }
        }
        Ok(())
    }

    // The line of entry i, up to its shown quantities.
    fn entry(&mut self, i: u32, e: Entry) {
        let characters = e.characters.to_be_bytes();
        let _ = write!(self.lines, "  entry {i}: type \"{}\"", Trimmed(&characters));
        let _ = match e.says {
            Says::Level {
                entry_price,
                size,
                level,
                order_count,
                shown: _,
            } => write!(
                self.lines,
                ", price {}, size {}, level {level}, order count {order_count}",
                Decimal(entry_price, ENTRY_PRICE),
                Decimal(size, QUANTITY)
            ),
            Says::LevelWithoutPrice {
                size,
                level,
                order_count,
                shown: _,
            } => write!(
                self.lines,
                ", price -, size {}, level {level}, order count {order_count}",
                Decimal(size, QUANTITY)
            ),
            Says::Price { entry_price } => write!(
                self.lines,
                ", price {}",
                Decimal(entry_price, ENTRY_PRICE)
            ),
            Says::Size { size } => write!(self.lines, ", size {}", Decimal(size, QUANTITY)),
            Says::Both { entry_price, size } => write!(
                self.lines,
                ", price {}, size {}",
                Decimal(entry_price, ENTRY_PRICE),
                Decimal(size, QUANTITY)
            ),
            Says::NoLimit => write!(self.lines, ", no limit"),
            Says::Unknown => write!(self.lines, ", unknown"),
        };
    }

    // The shown quantities behind an entry.
    fn quantities(&mut self, shown: &[u8]) -> io::Result<()> {
        for (k, q) in shown.chunks_exact(width::QUANTITY).enumerate() {
            self.room()?;
            let words = if k == 0 { ", quantities" } else { "" };
            let _ = write!(self.lines, "{words} {}", Decimal(i64::at(q, 0), QUANTITY));
        }
        Ok(())
    }

    // The entries of a body, by the cursor.
    pub fn entries(&mut self, kind: u32, body: &[u8], count: u32) -> io::Result<()> {
        let mut cursor = Cursor::start(kind, body);
        for i in 0..count {
            let Ok(Some((e, next))) = cursor.step(kind, body) else {
                return Ok(());
            };
            self.room()?;
            self.entry(i, e);
            self.quantities(shown(kind, body, cursor.offset, next.offset))?;
            let _ = writeln!(self.lines);
            cursor = next;
        }
        Ok(())
    }
}
