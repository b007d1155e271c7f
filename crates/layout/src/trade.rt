// 300191, trade: the offsets of its fields, in their order.
use crate::width;

pub const CHANNEL: usize = 0;

pub const NUMBER: usize = CHANNEL + width::CHANNEL;

pub const STREAM: usize = NUMBER + width::NUMBER;

pub const BID_NUMBER: usize = STREAM + width::STREAM;

pub const OFFER_NUMBER: usize = BID_NUMBER + width::NUMBER;

pub const SECURITY: usize = OFFER_NUMBER + width::NUMBER;

pub const SOURCE: usize = SECURITY + width::SECURITY;

pub const PRICE: usize = SOURCE + width::SOURCE;

pub const QUANTITY: usize = PRICE + width::PRICE;

pub const EXECUTION: usize = QUANTITY + width::QUANTITY;

pub const TIME: usize = EXECUTION + width::EXECUTION;

// The bytes of its fields, and those of its texts.
pub const SIZE: usize = TIME + width::TIME;

pub const TEXTS_SIZE: usize = width::STREAM + width::SECURITY + width::SOURCE;
