// Entries: a cursor that steps from one to the next, and entries and their shown quantities by position. No struct of an entry holds a price: a price comes only through a call with a lent number.
ghost use Rattle.std.specs.Prelude.{◌≡◌};
ghost use Rattle.layout.specs.Layout.{named};
ghost use Rattle.entries.specs.Entry.{entry_of, quantity_of, start, step, entry_found};
ghost use Rattle.entries.specs.Paper.{means_cursor};
ghost use Rattle.prices.specs.Entries.{entry_answer, step_answer, pricing, priced_left};
ghost use Rattle.orizhgum.specs.Quantity.{quantity_answer};

use entries::Cursor;
use prices::{EntryAnswer, StepAnswer};
use wire::answers::{NO_SUCH_ENTRY, PLAIN};

#[repr(C)]
#[derive(Clone, Copy)]
pub struct QuantityAnswer {
    pub answer: u32,
    pub quantity: i64,
}

// Entry i of a body, from 0.
pub fn orizhgum_entry(kind: u32, body: &[u8], i: u32) -> EntryAnswer
    ensures { result ≡ entry_answer (entry_of kind body.now i) }
{
    prices::entry_of(kind, body, i)
}

// The price of entry i; "no price" leaves the lent number as it stood, and so does every refusal.
pub fn orizhgum_entry_price(kind: u32, body: &[u8], i: u32, price: &mut i64) -> u32
    ensures value { result ≡ pricing (entry_of kind body.now i) }
    ensures price_after { price.new ≡ priced_left (entry_of kind body.now i) price.old }
{
    prices::price_of(kind, body, i, price)
}

// Shown quantity j of entry i, each from 0.
pub fn orizhgum_quantity(kind: u32, body: &[u8], i: u32, j: u32) -> QuantityAnswer
    ensures { result ≡ quantity_answer (quantity_of kind body.now i j) }
{
    let (answer, quantity) = match entries::quantity_of(kind, body, i, j) {
        Ok(Some(quantity)) => (PLAIN, quantity),
        Ok(None) => (NO_SUCH_ENTRY, 0),
        Err(x) => (u32::from(x), 0),
    };
    QuantityAnswer { answer, quantity }
}

// The cursor before the first entry of a body.
pub fn orizhgum_cursor(kind: u32, body: &[u8]) -> Cursor
    ensures { means_cursor result ≡ start (named kind) body.now }
{
    Cursor::start(kind, body)
}

// The entry at a cursor with its price, and the cursor behind it; where the entry says no price, or there is none, the lent number is as it stood.
pub fn orizhgum_next(at: Cursor, kind: u32, body: &[u8], price: &mut i64) -> StepAnswer
    ensures value { result ≡ step_answer (step (named kind) body.now (means_cursor at)) at }
    ensures price_after { price.new ≡ priced_left (entry_found (step (named kind) body.now (means_cursor at))) price.old }
{
    prices::next(at, kind, body, price)
}

// The price of the entry at a cursor, as that of entry i.
pub fn orizhgum_step_price(at: Cursor, kind: u32, body: &[u8], price: &mut i64) -> u32
    ensures value { result ≡ pricing (entry_found (step (named kind) body.now (means_cursor at))) }
    ensures price_after { price.new ≡ priced_left (entry_found (step (named kind) body.now (means_cursor at))) price.old }
{
    prices::step_price(at, kind, body, price)
}
