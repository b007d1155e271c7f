// 309111, volume index: the common part, then the stock number.
use crate::{common, width};

pub const STOCK_NUMBER: usize = common::SIZE;

// The bytes of its fields, and those of its texts.
pub const SIZE: usize = STOCK_NUMBER + width::STOCK_NUMBER;

pub const TEXTS_SIZE: usize = common::TEXTS_SIZE;
