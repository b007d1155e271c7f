// For C: the request.
ghost use Rattle.std.specs.Prelude.{◌≡◌};
ghost use Rattle.seats.specs.Arrays.{at_entry};
ghost use Rattle.tracker.specs.Places.{made};
ghost use Rattle.tracker.specs.Request.{request, request_leaves};
ghost use Rattle.orizhgum.specs.Requested.{request_answer};

use orizhgum::written::WriteAnswer;
use seats::Seat;
use tracker::Tracker;

#[unsafe(no_mangle)]
pub extern "C" fn orizhgum_request_in<'a>(
    count: usize,
    numbers: &'a [u16; Tracker::CHANNELS],
    from: &'a [u64; Tracker::CHANNELS],
    highest: &'a [u64; Tracker::CHANNELS],
    ended: &'a [u8; Tracker::CHANNELS],
    counts: &'a [usize; Tracker::CHANNELS],
    first: &'a [u64; Seat::PLACES],
    last: &'a [u64; Seat::PLACES],
    channel: u16,
    out: &mut [u8],
) -> WriteAnswer
    ensures value { result ≡ request_answer (request (made (at_entry count numbers from highest ended counts first last)) channel out.old) }
    ensures out_after { out.new ≡ request_leaves (made (at_entry count numbers from highest ended counts first last)) channel out.old }
{
    orizhgum::requested::orizhgum_request_in(
        count, numbers, from, highest, ended, counts, first, last, channel, out,
    )
}
