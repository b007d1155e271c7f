// The bodies of frames that are to be written: the fields of a record judged and stored, for each listed type.
#![tactic(auto)]

mod body;
mod channel_heartbeat;
mod common;
mod groups;
mod heartbeat;
mod index;
mod order;
mod resend;
mod security_status;
mod snapshot;
mod statistics;
mod trade;
mod volume_index;

pub use body::Body;
