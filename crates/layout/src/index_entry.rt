// An entry of an index: the offsets of its fields, in their order.
use crate::width;

pub const ENTRY_TYPE: usize = 0;

pub const PRICE: usize = ENTRY_TYPE + width::ENTRY_TYPE;

// The bytes of its fields.
pub const WIDTH: usize = PRICE + width::PRICE;
