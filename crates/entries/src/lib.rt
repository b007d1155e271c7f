// The entries of a snapshot or an index: what each says, by position and by a cursor.
#![tactic(auto)]

mod cursor;
mod entry;

pub use cursor::Cursor;
pub use entry::{Entry, Says, entry_of, is_both, is_index_price, is_level, is_price, quantity_of};
