// For C: entries, by a cursor and by position.
ghost use Rattle.std.specs.Prelude.{◌≡◌};
ghost use Rattle.layout.specs.Layout.{named};
ghost use Rattle.entries.specs.Entry.{entry_of, quantity_of, start, step, entry_found};
ghost use Rattle.entries.specs.Paper.{means_cursor};
ghost use Rattle.prices.specs.Entries.{entry_answer, step_answer, pricing, priced_left};
ghost use Rattle.orizhgum.specs.Quantity.{quantity_answer};

use entries::Cursor;
use orizhgum::entry::QuantityAnswer;
use prices::{EntryAnswer, StepAnswer};

#[unsafe(no_mangle)]
pub extern "C" fn orizhgum_entry(kind: u32, body: &[u8], i: u32) -> EntryAnswer
    ensures { result ≡ entry_answer (entry_of kind body.now i) }
{
    orizhgum::entry::orizhgum_entry(kind, body, i)
}

#[unsafe(no_mangle)]
pub extern "C" fn orizhgum_entry_price(kind: u32, body: &[u8], i: u32, price: &mut i64) -> u32
    ensures value { result ≡ pricing (entry_of kind body.now i) }
    ensures price_after { price.new ≡ priced_left (entry_of kind body.now i) price.old }
{
    orizhgum::entry::orizhgum_entry_price(kind, body, i, price)
}

#[unsafe(no_mangle)]
pub extern "C" fn orizhgum_quantity(kind: u32, body: &[u8], i: u32, j: u32) -> QuantityAnswer
    ensures { result ≡ quantity_answer (quantity_of kind body.now i j) }
{
    orizhgum::entry::orizhgum_quantity(kind, body, i, j)
}

#[unsafe(no_mangle)]
pub extern "C" fn orizhgum_cursor(kind: u32, body: &[u8]) -> Cursor
    ensures { means_cursor result ≡ start (named kind) body.now }
{
    orizhgum::entry::orizhgum_cursor(kind, body)
}

#[unsafe(no_mangle)]
pub extern "C" fn orizhgum_next(at: Cursor, kind: u32, body: &[u8], price: &mut i64) -> StepAnswer
    ensures value { result ≡ step_answer (step (named kind) body.now (means_cursor at)) at }
    ensures price_after { price.new ≡ priced_left (entry_found (step (named kind) body.now (means_cursor at))) price.old }
{
    orizhgum::entry::orizhgum_next(at, kind, body, price)
}

#[unsafe(no_mangle)]
pub extern "C" fn orizhgum_step_price(at: Cursor, kind: u32, body: &[u8], price: &mut i64) -> u32
    ensures value { result ≡ pricing (entry_found (step (named kind) body.now (means_cursor at))) }
    ensures price_after { price.new ≡ priced_left (entry_found (step (named kind) body.now (means_cursor at))) price.old }
{
    orizhgum::entry::orizhgum_step_price(at, kind, body, price)
}
