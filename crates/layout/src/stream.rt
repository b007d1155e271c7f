// A group of a statistics body: the offsets of its fields, in their order.
use crate::width;

pub const STREAM: usize = 0;

pub const STOCK_NUMBER: usize = STREAM + width::STREAM;

pub const PHASE: usize = STOCK_NUMBER + width::STOCK_NUMBER;

// The bytes of its fields.
pub const WIDTH: usize = PHASE + width::PHASE;
