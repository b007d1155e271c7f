// How many bytes each kind of field takes.
pub const CHANNEL: usize = 2;

// Record, last, first, bid and offer number.
pub const NUMBER: usize = 8;

pub const PRICE: usize = 8;

// A quantity, size or volume.
pub const QUANTITY: usize = 8;

pub const AMOUNT: usize = 8;

pub const TRADE_COUNT: usize = 8;

pub const ORDER_COUNT: usize = 8;

pub const TIME: usize = 8;

pub const SIDE: usize = 1;

pub const ORDER_TYPE: usize = 1;

pub const EXECUTION: usize = 1;

pub const ENTRY_TYPE: usize = 2;

pub const LEVEL: usize = 2;

// Of groups, of entries, or of shown quantities.
pub const COUNT: usize = 4;

pub const STOCK_NUMBER: usize = 4;

pub const SWITCH_TYPE: usize = 2;

pub const YES_NO: usize = 2;

pub const RESEND_TYPE: usize = 1;

pub const STATUS: usize = 1;

// The texts, in characters.
pub const STREAM: usize = 3;

pub const SECURITY: usize = 8;

pub const SOURCE: usize = 4;

pub const PHASE: usize = 8;

pub const FINANCIAL_STATUS: usize = 8;

pub const NEWS_ID: usize = 8;

pub const REJECT_TEXT: usize = 16;
