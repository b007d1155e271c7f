// First numbers of channels in their places.
ghost use Rattle.std.specs.Prelude.{◌≡◌, take};
ghost use Rattle.seats.specs.Places.{channel_limit};
ghost use Rattle.tracker.specs.Inside.{lowered};

use crate::Tracker;
use crate::signs::natural;

// The numbers, each less by the same, in the places of channels, zero behind them.
pub(crate) fn lowered(from: &[i64], by: u64) -> [u64; Tracker::CHANNELS]
    ensures { result ≡ lowered by (take channel_limit from.now) }
{
    let mut out = [0; Tracker::CHANNELS];
    for i in 0..from.len().min(Tracker::CHANNELS) {
        out[i] = natural(from[i]).saturating_sub(by);
    }
    out
}
