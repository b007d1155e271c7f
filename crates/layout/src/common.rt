// The common part of snapshot, index and volume index: the offsets of its fields, in their order.
use crate::width;

pub const TIME: usize = 0;

pub const CHANNEL: usize = TIME + width::TIME;

pub const STREAM: usize = CHANNEL + width::CHANNEL;

pub const SECURITY: usize = STREAM + width::STREAM;

pub const SOURCE: usize = SECURITY + width::SECURITY;

pub const PHASE: usize = SOURCE + width::SOURCE;

pub const PREVIOUS_CLOSE: usize = PHASE + width::PHASE;

pub const TRADE_COUNT: usize = PREVIOUS_CLOSE + width::PRICE;

pub const VOLUME: usize = TRADE_COUNT + width::TRADE_COUNT;

pub const AMOUNT: usize = VOLUME + width::QUANTITY;

// The bytes of its fields, and those of its texts.
pub const SIZE: usize = AMOUNT + width::AMOUNT;

pub const TEXTS_SIZE: usize = width::STREAM + width::SECURITY + width::SOURCE + width::PHASE;
