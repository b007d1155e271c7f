// The gap record of up to eight channels: which numbers never came, in whatever order they came.
#![tactic(auto)]

ghost use Rattle.std.specs.Prelude.{◌≡◌, Err};
ghost use Rattle.gaps.specs.Channel.{tick, heartbeat};
ghost use Rattle.wire.specs.Number.{answer_number};
ghost use Rattle.seats.specs.Arrays.{held};
ghost use Rattle.joins.specs.Join.{Joins};
ghost use Rattle.tracker.specs.Places.{arrays_of};
ghost use Rattle.tracker.specs.SetUp.{blank_with, set_up, means_started as begun};
ghost use Rattle.tracker.specs.Arrived.{on, arrive, arrival_said, means_reply};
ghost use Rattle.tracker.specs.Join.{means_joined as joined};
ghost use Rattle.tracker.specs.Request.{request, request_leaves, means_requested as requested};
ghost use Rattle.tracker.specs.declared.Refusal.TheVariants.{Malformed};
ghost use Rattle.tracker.specs.declared.RequestRefusal.TheVariants.{Malformed as Unasked};

pub use joins::{Refusal as JoinRefusal, join_in};
pub use lent::{heartbeat_in, tick_in};
pub use request::request_in;
use rows::padded;
pub use seats::{Fields, FieldsMut, Malformed};
use seats::{Seat, listed};
use starts::lowered;
use wire::answers;

mod lent;
mod refused;
mod request;
mod signs;
mod starts;

// Each channel's number, first number, highest number, ended mark and count of runs, and the runs of all of them; unused places are zero.
// Arrays side by side, as C holds them: the struct crosses to C by value.
#[repr(C)]
#[derive(Clone, Copy)]
pub struct Tracker {
    pub count: usize,
    pub numbers: [u16; Tracker::CHANNELS],
    pub from: [u64; Tracker::CHANNELS],
    pub highest: [u64; Tracker::CHANNELS],
    pub ended: [u8; Tracker::CHANNELS],
    pub counts: [usize; Tracker::CHANNELS],
    pub first: [u64; Tracker::PLACES],
    pub last: [u64; Tracker::PLACES],
}

// The set-up's answer, and the tracker; it is no part of the answer, as a refused set-up gives one too, that has no channel.
#[derive(Clone, Copy)]
pub struct Started {
    pub verdict: Result<(), Malformed>,
    pub tracker: Tracker,
}

// What an arrival brings.
#[derive(Clone, Copy, Debug, PartialEq, Eq)]
pub enum News {
    New,
    Late,
    Duplicate,
    Heard,
    BeforeStart,
}

// Why an arrival is refused.
#[derive(Clone, Copy, Debug, PartialEq, Eq)]
pub enum Refusal {
    NoSuchChannel,
    NumberTooLow,
    TableFull,
    Malformed,
}

impl From<Malformed> for Refusal {
    ghost from_gives = { λ _ why. why ≡ Malformed };

    fn from(_: Malformed) -> Refusal {
        Refusal::Malformed
    }
}

// The refusal's number.
impl From<Refusal> for u32 {
    ghost from_gives = { λ why n. n ≡ answer_number (arrival_said (Err why)) };

    fn from(why: Refusal) -> u32 {
        match why {
            Refusal::NoSuchChannel => answers::NO_SUCH_CHANNEL,
            Refusal::NumberTooLow => answers::NUMBER_TOO_LOW,
            Refusal::TableFull => answers::TABLE_FULL,
            Refusal::Malformed => answers::MALFORMED,
        }
    }
}

// An arrival's answer, and the next tracker, which a refusal gives too: as it stood.
#[derive(Clone, Copy)]
pub struct Reply {
    pub verdict: Result<News, Refusal>,
    pub next: Tracker,
}

// What a join answers.
pub type JoinVerdict = Result<(), JoinRefusal>;

// A join's answer, and the next tracker, which a refusal gives too: as it stood.
#[derive(Clone, Copy)]
pub struct Joined {
    pub verdict: JoinVerdict,
    pub next: Tracker,
}

// Why a request is refused.
#[derive(Clone, Copy, Debug, PartialEq, Eq)]
pub enum RequestRefusal {
    Malformed,
    NoSuchChannel,
    OutputShort,
}

impl From<Malformed> for RequestRefusal {
    ghost from_gives = { λ _ why. why ≡ Unasked };

    fn from(_: Malformed) -> RequestRefusal {
        RequestRefusal::Malformed
    }
}

// The refusal's number.
impl From<RequestRefusal> for u32 {
    ghost from_gives = { λ why n. n ≡ answer_number (requested (Err why)) };

    fn from(why: RequestRefusal) -> u32 {
        match why {
            RequestRefusal::Malformed => answers::MALFORMED,
            RequestRefusal::NoSuchChannel => answers::NO_SUCH_CHANNEL,
            RequestRefusal::OutputShort => answers::OUTPUT_SHORT,
        }
    }
}

// A tracker's fields, lent to be written. It is a macro, as a function that lends five arrays has no contract that says what becomes of them.
macro_rules! lent {
    ($tracker:ident) => {
        FieldsMut {
            count: $tracker.count,
            numbers: &$tracker.numbers,
            from: &$tracker.from,
            highest: &mut $tracker.highest,
            ended: &mut $tracker.ended,
            counts: &mut $tracker.counts,
            first: &mut $tracker.first,
            last: &mut $tracker.last,
        }
    };
}

impl Tracker {
    // The most channels that a tracker holds.
    pub const CHANNELS: usize = Seat::COUNT;

    // The most numbers that one request asks for.
    pub const BATCH: u64 = 200;

    // The places of all channels' runs.
    const PLACES: usize = Seat::PLACES;

    // A tracker of these channels, with a first number for each, that nothing has reached; or the all-zero tracker where they are refused.
    pub fn set_up<'a>(numbers: &'a [u16], from: &'a [i64]) -> Started
        ensures { begun result ≡ set_up numbers.now from.now }
    {
        if listed(numbers, from) {
            return Started {
                verdict: Ok(()),
                tracker: Tracker::blank(
                    numbers.len(),
                    padded(numbers),
                    lowered(from, 0),
                    lowered(from, 1),
                ),
            };
        }
        Started {
            verdict: Err(Malformed),
            tracker: Tracker::blank(
                0,
                [0; Tracker::CHANNELS],
                [0; Tracker::CHANNELS],
                [0; Tracker::CHANNELS],
            ),
        }
    }

    // A tracker of these channels, first and highest numbers, zero but for them.
    fn blank(
        count: usize,
        numbers: [u16; Tracker::CHANNELS],
        from: [u64; Tracker::CHANNELS],
        highest: [u64; Tracker::CHANNELS],
    ) -> Tracker
        ensures { result ≡ blank_with count numbers from highest }
    {
        Tracker {
            count,
            numbers,
            from,
            highest,
            ended: [0; Tracker::CHANNELS],
            counts: [0; Tracker::CHANNELS],
            first: [0; Tracker::PLACES],
            last: [0; Tracker::PLACES],
        }
    }

    // Its fields, lent to be read.
    pub fn fields(&self) -> Fields<'_>
        ensures { held result ≡ arrays_of self.now }
    {
        Fields {
            count: self.count,
            numbers: &self.numbers,
            from: &self.from,
            highest: &self.highest,
            ended: &self.ended,
            counts: &self.counts,
            first: &self.first,
            last: &self.last,
        }
    }

    // A tick on a channel: its answer, and the next tracker.
    pub fn tick(mut self, channel: u16, number: i64) -> Reply
        ensures { means_reply result ≡ arrive self (on channel (tick number)) }
    {
        let verdict = tick_in(&mut lent!(self), channel, number);
        Reply {
            verdict,
            next: self,
        }
    }

    // A channel heartbeat: its answer, and the next tracker.
    pub fn heartbeat(mut self, channel: u16, last: i64, end: bool) -> Reply
        ensures { means_reply result ≡ arrive self (on channel (heartbeat last end)) }
    {
        let verdict = heartbeat_in(&mut lent!(self), channel, last, end);
        Reply {
            verdict,
            next: self,
        }
    }

    // This tracker joined with another of the same set-up: what either received is received. A refusal gives this one back as it stood.
    pub fn join(mut self, other: Tracker) -> Joined
        ensures { Joins (arrays_of self) (arrays_of other) (joined result) }
    {
        let verdict = join_in(&mut lent!(self), other.fields());
        Joined {
            verdict,
            next: self,
        }
    }

    // Writes the frame that asks for the first run of a channel, or for as many of its numbers as one request may, and tells how many bytes; none where nothing is missing. A refused or empty request leaves every byte as it stood.
    pub fn request(self, channel: u16, out: &mut [u8]) -> Result<Option<usize>, RequestRefusal>
        ensures result_value { requested result ≡ request self channel out.old }
        ensures out_after { out.new ≡ request_leaves self channel out.old }
    {
        request_in(self.fields(), channel, out)
    }
}
