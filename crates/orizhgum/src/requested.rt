// The request: the frame that asks for a channel's first run, to the start of a lent output. The tracker's arrays stay as they are; they are parameters of their own for C.
ghost use Rattle.std.specs.Prelude.{◌≡◌};
ghost use Rattle.seats.specs.Arrays.{at_entry};
ghost use Rattle.tracker.specs.Places.{made};
ghost use Rattle.tracker.specs.Request.{request, request_leaves};
ghost use Rattle.orizhgum.specs.Requested.{request_answer};

use crate::written::WriteAnswer;
use seats::{Fields, Seat};
use tracker::{Tracker, request_in};
use wire::answers::{NOTHING_MISSING, PLAIN};

pub fn orizhgum_request_in<'a>(
    count: usize,
    numbers: &'a [u16; Tracker::CHANNELS],
    from: &'a [u64; Tracker::CHANNELS],
    highest: &'a [u64; Tracker::CHANNELS],
    ended: &'a [u8; Tracker::CHANNELS],
    counts: &'a [usize; Tracker::CHANNELS],
    first: &'a [u64; Seat::PLACES],
    last: &'a [u64; Seat::PLACES],
    channel: u16,
    out: &mut [u8],
) -> WriteAnswer
    ensures value { result ≡ request_answer (request (made (at_entry count numbers from highest ended counts first last)) channel out.old) }
    ensures out_after { out.new ≡ request_leaves (made (at_entry count numbers from highest ended counts first last)) channel out.old }
{
    let fields = Fields {
        count,
        numbers,
        from,
        highest,
        ended,
        counts,
        first,
        last,
    };
    let (answer, written) = match request_in(fields, channel, out) {
        Ok(Some(written)) => (PLAIN, written),
        Ok(None) => (NOTHING_MISSING, 0),
        Err(why) => (u32::from(why), 0),
    };
    WriteAnswer { answer, written }
}
