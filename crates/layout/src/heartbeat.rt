// 3, heartbeat: it has no fields.
// The bytes of its fields, and those of its texts.
pub const SIZE: usize = 0;

pub const TEXTS_SIZE: usize = 0;
