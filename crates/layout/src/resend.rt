// 390094, resend: the offsets of its fields, in their order.
use crate::width;

pub const RESEND_TYPE: usize = 0;

pub const CHANNEL: usize = RESEND_TYPE + width::RESEND_TYPE;

pub const FIRST_NUMBER: usize = CHANNEL + width::CHANNEL;

pub const LAST_NUMBER: usize = FIRST_NUMBER + width::NUMBER;

pub const NEWS_ID: usize = LAST_NUMBER + width::NUMBER;

pub const STATUS: usize = NEWS_ID + width::NEWS_ID;

pub const REJECT_TEXT: usize = STATUS + width::STATUS;

// The bytes of its fields, and those of its texts.
pub const SIZE: usize = REJECT_TEXT + width::REJECT_TEXT;

pub const TEXTS_SIZE: usize = width::NEWS_ID + width::REJECT_TEXT;
