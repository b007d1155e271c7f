// 300111, snapshot: the common part, then the count of its entries, which stand behind it.
use crate::{common, width};

pub const COUNT: usize = common::SIZE;

// The bytes of its fields, and those of its texts.
pub const SIZE: usize = COUNT + width::COUNT;

pub const TEXTS_SIZE: usize = common::TEXTS_SIZE;
