// For C: the tracker set up, ticks and channel heartbeats.
ghost use Rattle.std.specs.Prelude.{◌≡◌};
ghost use Rattle.gaps.specs.Channel.{tick, heartbeat};
ghost use Rattle.seats.specs.Arrays.{at_entry_mut, at_exit};
ghost use Rattle.tracker.specs.Places.{made};
ghost use Rattle.tracker.specs.SetUp.{set_up};
ghost use Rattle.tracker.specs.Arrived.{on, arrive};
ghost use Rattle.orizhgum.specs.Arrivals.{start_answer, ending, replied, arrival_answer};

use orizhgum::arrivals::StartAnswer;
use seats::Seat;
use tracker::Tracker;

#[unsafe(no_mangle)]
pub extern "C" fn orizhgum_set_up<'a>(channels: &'a [u16], from: &'a [i64]) -> StartAnswer
    ensures { result ≡ start_answer (set_up channels.now from.now) }
{
    orizhgum::arrivals::orizhgum_set_up(channels, from)
}

#[unsafe(no_mangle)]
pub extern "C" fn orizhgum_tick_in<'a>(
    count: usize,
    numbers: &'a [u16; Tracker::CHANNELS],
    from: &'a [u64; Tracker::CHANNELS],
    highest: &mut [u64; Tracker::CHANNELS],
    ended: &mut [u8; Tracker::CHANNELS],
    counts: &mut [usize; Tracker::CHANNELS],
    first: &mut [u64; Seat::PLACES],
    last: &mut [u64; Seat::PLACES],
    channel: u16,
    number: i64,
) -> u32
    ensures { replied result (made (at_exit count numbers from highest ended counts first last)) ≡ arrival_answer (arrive (made (at_entry_mut count numbers from highest ended counts first last)) (on channel (tick number))) }
{
    orizhgum::arrivals::orizhgum_tick_in(
        count, numbers, from, highest, ended, counts, first, last, channel, number,
    )
}

#[unsafe(no_mangle)]
pub extern "C" fn orizhgum_heard_in<'a>(
    count: usize,
    numbers: &'a [u16; Tracker::CHANNELS],
    from: &'a [u64; Tracker::CHANNELS],
    highest: &mut [u64; Tracker::CHANNELS],
    ended: &mut [u8; Tracker::CHANNELS],
    counts: &mut [usize; Tracker::CHANNELS],
    first: &mut [u64; Seat::PLACES],
    last: &mut [u64; Seat::PLACES],
    channel: u16,
    last_number: i64,
    end: u8,
) -> u32
    ensures { replied result (made (at_exit count numbers from highest ended counts first last)) ≡ arrival_answer (arrive (made (at_entry_mut count numbers from highest ended counts first last)) (on channel (heartbeat last_number (ending end)))) }
{
    orizhgum::arrivals::orizhgum_heard_in(
        count,
        numbers,
        from,
        highest,
        ended,
        counts,
        first,
        last,
        channel,
        last_number,
        end,
    )
}
