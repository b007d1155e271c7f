// 390013, security status: the offsets of its fields, in their order; its groups stand behind them.
use crate::width;

pub const TIME: usize = 0;

pub const CHANNEL: usize = TIME + width::TIME;

pub const SECURITY: usize = CHANNEL + width::CHANNEL;

pub const SOURCE: usize = SECURITY + width::SECURITY;

pub const FINANCIAL_STATUS: usize = SOURCE + width::SOURCE;

pub const COUNT: usize = FINANCIAL_STATUS + width::FINANCIAL_STATUS;

// The bytes of its fields, and those of its texts.
pub const SIZE: usize = COUNT + width::COUNT;

pub const TEXTS_SIZE: usize = width::SECURITY + width::SOURCE + width::FINANCIAL_STATUS;
