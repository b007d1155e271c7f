// Widths, offsets and sizes of the ten layouts, the decimals and ranges of their fields, and the groups behind a count. Every public function is total.
#![tactic(auto)]

pub mod channel_heartbeat;
pub mod common;
pub mod decimals;
pub mod entry;
mod group;
pub mod heartbeat;
pub mod index;
pub mod index_entry;
pub mod order;
mod range;
pub mod resend;
pub mod security_status;
pub mod snapshot;
pub mod statistics;
pub mod stream;
pub mod switch;
pub mod trade;
pub mod volume_index;
pub mod width;

pub use group::{Groups, Refusal, also, judge, judge_all, offset_from};
pub use range::{
    amount_in_range, entry_price_in_range, execution_in_range, natural_in_range, number_in_range,
    order_type_in_range, price_in_range, quantity_in_range, resend_type_in_range, side_in_range,
    status_in_range, time_in_range, yes_no_in_range,
};

// The room of a record's texts: those of a resend are the longest.
pub const TEXT_ROOM: usize = resend::TEXTS_SIZE;
