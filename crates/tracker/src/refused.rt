// The refusals of an arrival that come before its channel's, in their order.
ghost use Rattle.seats.specs.Arrays.{held};
ghost use Rattle.tracker.specs.Places.{made};
ghost use Rattle.tracker.specs.Inside.{Judges};

use crate::Refusal;
use seats::Fields;

// 10, then 7, then 8 where the number is too low; or the place of the channel, in a tracker of these fields.
pub(crate) fn judge(fields: Fields<'_>, channel: u16, low: bool) -> Result<usize, Refusal>
    ensures { Judges (made (held fields.entry)) channel low result }
{
    let Some(at) = fields.seat_of(channel)? else {
        return Err(Refusal::NoSuchChannel);
    };
    if low {
        return Err(Refusal::NumberTooLow);
    }
    Ok(at)
}
