// An entry of a snapshot: the offsets of its fields, in their order; the quantities that it shows stand behind them.
use crate::width;

pub const ENTRY_TYPE: usize = 0;

pub const PRICE: usize = ENTRY_TYPE + width::ENTRY_TYPE;

pub const SIZE: usize = PRICE + width::PRICE;

pub const LEVEL: usize = SIZE + width::QUANTITY;

pub const ORDER_COUNT: usize = LEVEL + width::LEVEL;

pub const SHOWN_COUNT: usize = ORDER_COUNT + width::ORDER_COUNT;

// The bytes of its fields.
pub const WIDTH: usize = SHOWN_COUNT + width::COUNT;
