// The tracker: set up, and the tick and channel heartbeat over its arrays, which become those of the next one.
ghost use Rattle.std.specs.Prelude.{◌≡◌};
ghost use Rattle.gaps.specs.Channel.{tick, heartbeat};
ghost use Rattle.seats.specs.Arrays.{at_entry_mut, at_exit};
ghost use Rattle.tracker.specs.Places.{made};
ghost use Rattle.tracker.specs.SetUp.{set_up};
ghost use Rattle.tracker.specs.Arrived.{on, arrive, arrival_said};
ghost use Rattle.orizhgum.specs.Arrivals.{said_number, start_answer, ending, replied, arrival_answer};

use seats::{FieldsMut, Seat};
use tracker::{Malformed, News, Refusal, Started, Tracker, heartbeat_in, tick_in};
use wire::answers::{BEFORE_START, DUPLICATE, LATE, MALFORMED, PLAIN};

#[repr(C)]
#[derive(Clone, Copy)]
pub struct StartAnswer {
    pub answer: u32,
    pub tracker: Tracker,
}

// The number of an arrival's answer.
fn verdict_number(verdict: Result<News, Refusal>) -> u32
    ensures { result ≡ said_number (arrival_said verdict) }
{
    match verdict {
        Ok(News::New | News::Heard) => PLAIN,
        Ok(News::Late) => LATE,
        Ok(News::Duplicate) => DUPLICATE,
        Ok(News::BeforeStart) => BEFORE_START,
        Err(why) => u32::from(why),
    }
}

// A tracker of these channels, with a first number for each, that nothing has reached; or the all-zero tracker where they are refused.
pub fn orizhgum_set_up<'a>(channels: &'a [u16], from: &'a [i64]) -> StartAnswer
    ensures { result ≡ start_answer (set_up channels.now from.now) }
{
    let Started { verdict, tracker } = Tracker::set_up(channels, from);
    let answer = match verdict {
        Ok(()) => PLAIN,
        Err(Malformed) => MALFORMED,
    };
    StartAnswer { answer, tracker }
}

// A tick on a channel of the tracker that the arrays hold, which become those of the next one; a refusal leaves them as they stood.
// C interface: it has the arrays as parameters of their own, here and in the calls like it.
pub fn orizhgum_tick_in<'a>(
    count: usize,
    numbers: &'a [u16; Tracker::CHANNELS],
    from: &'a [u64; Tracker::CHANNELS],
    highest: &mut [u64; Tracker::CHANNELS],
    ended: &mut [u8; Tracker::CHANNELS],
    counts: &mut [usize; Tracker::CHANNELS],
    first: &mut [u64; Seat::PLACES],
    last: &mut [u64; Seat::PLACES],
    channel: u16,
    number: i64,
) -> u32
    ensures { replied result (made (at_exit count numbers from highest ended counts first last)) ≡ arrival_answer (arrive (made (at_entry_mut count numbers from highest ended counts first last)) (on channel (tick number))) }
{
    let mut fields = FieldsMut {
        count,
        numbers,
        from,
        highest,
        ended,
        counts,
        first,
        last,
    };
    verdict_number(tick_in(&mut fields, channel, number))
}

// A channel heartbeat, in the same way; end 0 is no, anything else yes.
pub fn orizhgum_heard_in<'a>(
    count: usize,
    numbers: &'a [u16; Tracker::CHANNELS],
    from: &'a [u64; Tracker::CHANNELS],
    highest: &mut [u64; Tracker::CHANNELS],
    ended: &mut [u8; Tracker::CHANNELS],
    counts: &mut [usize; Tracker::CHANNELS],
    first: &mut [u64; Seat::PLACES],
    last: &mut [u64; Seat::PLACES],
    channel: u16,
    last_number: i64,
    end: u8,
) -> u32
    ensures { replied result (made (at_exit count numbers from highest ended counts first last)) ≡ arrival_answer (arrive (made (at_entry_mut count numbers from highest ended counts first last)) (on channel (heartbeat last_number (ending end)))) }
{
    let mut fields = FieldsMut {
        count,
        numbers,
        from,
        highest,
        ended,
        counts,
        first,
        last,
    };
    verdict_number(heartbeat_in(&mut fields, channel, last_number, end != 0))
}
