// 390090, statistics: the offsets of its fields, in their order; its groups stand behind them.
use crate::width;

pub const TIME: usize = 0;

pub const CHANNEL: usize = TIME + width::TIME;

pub const COUNT: usize = CHANNEL + width::CHANNEL;

// The bytes of its fields, and those of its texts.
pub const SIZE: usize = COUNT + width::COUNT;

pub const TEXTS_SIZE: usize = 0;
