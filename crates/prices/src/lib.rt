// Entries as a host sees them: an entry without its price, and the price by itself, in a number that is lent for it.
#![tactic(auto)]

mod entry;
mod step;

pub use entry::{Entry, EntryAnswer, StepAnswer, entry_of, price_of, step_price};
pub use step::next;
