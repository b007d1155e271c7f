// 390095, channel heartbeat: the offsets of its fields, in their order.
use crate::width;

pub const CHANNEL: usize = 0;

pub const LAST_NUMBER: usize = CHANNEL + width::CHANNEL;

pub const END: usize = LAST_NUMBER + width::NUMBER;

// The bytes of its fields, and those of its texts.
pub const SIZE: usize = END + width::YES_NO;

pub const TEXTS_SIZE: usize = 0;
