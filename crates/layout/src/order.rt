// 300192, order: the offsets of its fields, in their order.
use crate::width;

pub const CHANNEL: usize = 0;

pub const NUMBER: usize = CHANNEL + width::CHANNEL;

pub const STREAM: usize = NUMBER + width::NUMBER;

pub const SECURITY: usize = STREAM + width::STREAM;

pub const SOURCE: usize = SECURITY + width::SECURITY;

pub const PRICE: usize = SOURCE + width::SOURCE;

pub const QUANTITY: usize = PRICE + width::PRICE;

pub const SIDE: usize = QUANTITY + width::QUANTITY;

pub const TIME: usize = SIDE + width::SIDE;

pub const ORDER_TYPE: usize = TIME + width::TIME;

// The bytes of its fields, and those of its texts.
pub const SIZE: usize = ORDER_TYPE + width::ORDER_TYPE;

pub const TEXTS_SIZE: usize = width::STREAM + width::SECURITY + width::SOURCE;
