// Entries by position without their prices, and prices by themselves. No struct of an entry holds a price: a price comes only through a call with a lent number.
ghost use Rattle.std.specs.Prelude.{◌≡◌};
ghost use Rattle.layout.specs.Layout.{named};
ghost use Rattle.entries.specs.Entry.{entry_of, step, entry_found};
ghost use Rattle.entries.specs.Paper.{means_says, means_entry, means_asked_entry, means_cursor};
ghost use Rattle.prices.specs.Entries.{thing_number, bare, price_of, price_number, price_left, entry_from_c, no_entry, entry_answer, pricing, priced_left};

use entries::{Cursor, Says};
use layout::Refusal;
use wire::answers::{NO_PRICE, NO_SUCH_ENTRY, PLAIN};

// The seven things that an entry says.
#[derive(Clone, Copy)]
pub(crate) enum Thing {
    Level = 1,
    LevelWithoutPrice,
    Price,
    Size,
    Both,
    NoLimit,
    Unknown,
}

// An entry without its price: its two type characters, the first the higher byte, which of the seven things it says, as a number (a struct of the C
// interface), and the numbers that go with that; the others are zero.
#[repr(C)]
#[derive(Clone, Copy)]
pub struct Entry {
    pub says: u32,
    pub characters: u16,
    pub level: u16,
    pub size: i64,
    pub order_count: i64,
    pub shown: u32,
}

// The number of an answer, and an entry that is all zero where there is none: structs of the C interface.
#[repr(C)]
#[derive(Clone, Copy)]
pub struct EntryAnswer {
    pub answer: u32,
    pub entry: Entry,
}

#[repr(C)]
#[derive(Clone, Copy)]
pub struct StepAnswer {
    pub answer: u32,
    pub entry: Entry,
    pub next: Cursor,
}

pub(crate) fn no_entry() -> Entry
    ensures { result ≡ no_entry }
{
    Entry {
        says: 0,
        characters: 0,
        level: 0,
        size: 0,
        order_count: 0,
        shown: 0,
    }
}

// An entry that says at most a size.
pub(crate) fn bare_entry(says: Thing, characters: u16, size: i64) -> Entry
    ensures { result ≡ bare (thing_number says) characters size }
{
    Entry {
        says: says as u32,
        characters,
        level: 0,
        size,
        order_count: 0,
        shown: 0,
    }
}

// An entry without its price.
impl From<entries::Entry> for Entry {
    ghost from_gives = { λ e r. r ≡ entry_from_c (means_entry e) };

    fn from(e: entries::Entry) -> Entry {
        let characters = e.characters;
        match e.says {
            Says::Level {
                size,
                level,
                order_count,
                shown,
                ..
            } => Entry {
                says: Thing::Level as u32,
                characters,
                level,
                size,
                order_count,
                shown,
            },
            Says::LevelWithoutPrice {
                size,
                level,
                order_count,
                shown,
            } => Entry {
                says: Thing::LevelWithoutPrice as u32,
                characters,
                level,
                size,
                order_count,
                shown,
            },
            Says::Price { .. } => bare_entry(Thing::Price, characters, 0),
            Says::Size { size } => bare_entry(Thing::Size, characters, size),
            Says::Both { size, .. } => bare_entry(Thing::Both, characters, size),
            Says::NoLimit => bare_entry(Thing::NoLimit, characters, 0),
            Says::Unknown => bare_entry(Thing::Unknown, characters, 0),
        }
    }
}

// The price that an entry says goes to the lent number; where it says none, the number is left as it stood.
// Here and below the answer is the number that the C interface gives.
fn give(says: Says, price: &mut i64) -> u32
    ensures value { result ≡ price_number (price_of (means_says says)) }
    ensures price_after { price.new ≡ price_left (price_of (means_says says)) price.old }
{
    match says {
        Says::Level { entry_price, .. }
        | Says::Price { entry_price }
        | Says::Both { entry_price, .. } => {
            *price = entry_price;
            PLAIN
        }
        Says::LevelWithoutPrice { .. } | Says::Size { .. } | Says::Unknown => NO_PRICE,
        Says::NoLimit => NO_PRICE,
    }
}

// The price of what was asked for; "no price" leaves the lent number as it stood, and so does every refusal.
#[tactic(auto, unfolding(crate::specs::Entries::pricing, crate::specs::Entries::priced_left))]
fn price_in(asked: Result<Option<entries::Entry>, Refusal>, price: &mut i64) -> u32
    ensures value { result ≡ pricing (means_asked_entry asked) }
    ensures price_after { price.new ≡ priced_left (means_asked_entry asked) price.old }
{
    match asked {
        Ok(Some(e)) => give(e.says, price),
        Ok(None) => NO_SUCH_ENTRY,
        Err(why) => u32::from(why),
    }
}

// Entry i of a body, from 0.
#[tactic(auto, unfolding(crate::specs::Entries::entry_answer))]
pub fn entry_of(kind: u32, body: &[u8], i: u32) -> EntryAnswer
    ensures { result ≡ entry_answer (entry_of kind body.now i) }
{
    match entries::entry_of(kind, body, i) {
        Ok(Some(e)) => EntryAnswer {
            answer: PLAIN,
            entry: Entry::from(e),
        },
        Ok(None) => EntryAnswer {
            answer: NO_SUCH_ENTRY,
            entry: no_entry(),
        },
        Err(why) => EntryAnswer {
            answer: u32::from(why),
            entry: no_entry(),
        },
    }
}

// The price of entry i.
pub fn price_of(kind: u32, body: &[u8], i: u32, price: &mut i64) -> u32
    ensures value { result ≡ pricing (entry_of kind body.now i) }
    ensures price_after { price.new ≡ priced_left (entry_of kind body.now i) price.old }
{
    price_in(entries::entry_of(kind, body, i), price)
}

// The price of the entry at a cursor, as that of entry i.
pub fn step_price(at: Cursor, kind: u32, body: &[u8], price: &mut i64) -> u32
    ensures value { result ≡ pricing (entry_found (step (named kind) body.now (means_cursor at))) }
    ensures price_after { price.new ≡ priced_left (entry_found (step (named kind) body.now (means_cursor at))) price.old }
{
    price_in(
        at.step(kind, body).map(|found| found.map(|(e, _)| e)),
        price,
    )
}
