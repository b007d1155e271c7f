// Two trackers joined, over their arrays, which are parameters of their own for C.
ghost use Rattle.std.specs.Prelude.{◌≡◌};
ghost use Rattle.seats.specs.Arrays.{at_entry, at_end, at_entry_mut, at_end_mut};
ghost use Rattle.orizhgum.specs.Joined.{JoinsFromC, join_replied};

use joins::join_in;
use seats::{Fields, FieldsMut, Seat};
use tracker::Tracker;
use wire::answers::PLAIN;

// Joins the tracker that the first arrays hold with another, and they become those of the tracker joined; a refusal leaves them as they stood.
pub fn orizhgum_join_in<'a>(
    count: usize,
    numbers: &'a [u16; Tracker::CHANNELS],
    from: &'a [u64; Tracker::CHANNELS],
    highest: &mut [u64; Tracker::CHANNELS],
    ended: &mut [u8; Tracker::CHANNELS],
    counts: &mut [usize; Tracker::CHANNELS],
    first: &mut [u64; Seat::PLACES],
    last: &mut [u64; Seat::PLACES],
    other_count: usize,
    other_numbers: &'a [u16; Tracker::CHANNELS],
    other_from: &'a [u64; Tracker::CHANNELS],
    other_highest: &'a [u64; Tracker::CHANNELS],
    other_ended: &'a [u8; Tracker::CHANNELS],
    other_counts: &'a [usize; Tracker::CHANNELS],
    other_first: &'a [u64; Seat::PLACES],
    other_last: &'a [u64; Seat::PLACES],
) -> u32
    ensures joins_from_c { JoinsFromC (at_entry_mut count numbers from highest ended counts first last) (at_entry other_count other_numbers other_from other_highest other_ended other_counts other_first other_last) (join_replied result (at_end_mut count numbers from highest ended counts first last)) }
    ensures other_stays { at_end other_count other_numbers other_from other_highest other_ended other_counts other_first other_last ≡ at_entry other_count other_numbers other_from other_highest other_ended other_counts other_first other_last }
{
    let mut mine = FieldsMut {
        count,
        numbers,
        from,
        highest,
        ended,
        counts,
        first,
        last,
    };
    let other = Fields {
        count: other_count,
        numbers: other_numbers,
        from: other_from,
        highest: other_highest,
        ended: other_ended,
        counts: other_counts,
        first: other_first,
        last: other_last,
    };
    match join_in(&mut mine, other) {
        Ok(()) => PLAIN,
        Err(why) => u32::from(why),
    }
}
