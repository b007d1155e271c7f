// The numbers of the answers: 0 is the plain one, 1 to 99 are the refusals, 100 and up the others.
// They stay numbers: the C interface answers them. Inside, refusals are enums.
pub const PLAIN: u32 = 0;

pub const TOO_SHORT: u32 = 1;

pub const TOO_LONG: u32 = 2;

pub const WRONG_SUM: u32 = 3;

pub const NOT_ITS_LAYOUT: u32 = 4;

pub const OUT_OF_RANGE: u32 = 5;

pub const OUTPUT_SHORT: u32 = 6;

pub const NO_SUCH_CHANNEL: u32 = 7;

pub const NUMBER_TOO_LOW: u32 = 8;

pub const TABLE_FULL: u32 = 9;

pub const MALFORMED: u32 = 10;

pub const SET_UPS_DIFFER: u32 = 11;

pub const UNKNOWN: u32 = 100;

pub const NO_SUCH_ENTRY: u32 = 101;

pub const NO_PRICE: u32 = 102;

pub const LATE: u32 = 103;

pub const DUPLICATE: u32 = 104;

pub const NOTHING_MISSING: u32 = 105;

pub const MORE: u32 = 106;

pub const END: u32 = 107;

pub const BEFORE_START: u32 = 108;
