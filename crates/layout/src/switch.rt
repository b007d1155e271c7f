// A group of a security status: the offsets of its fields, in their order.
use crate::width;

pub const SWITCH_TYPE: usize = 0;

pub const YES_NO: usize = SWITCH_TYPE + width::SWITCH_TYPE;

// The bytes of its fields.
pub const WIDTH: usize = YES_NO + width::YES_NO;
