// A channel's row of runs in a tracker's arrays: searched for a number, grown, closed up and opened.
#![tactic(auto)]

ghost use Rattle.std.specs.Prelude.{◌≡◌, take};
ghost use Rattle.gaps.specs.Gaps.{run};
ghost use Rattle.gaps.specs.Built.{padded};
ghost use Rattle.seats.specs.Places.{channel_limit};
ghost use Rattle.rows.specs.Row.{row_there};
ghost use Rattle.rows.specs.Held.{left_at, search};
ghost use Rattle.rows.specs.Gap.{room};
ghost use Rattle.rows.specs.Shift.{closed, opened};

use gaps::Run;
use seats::Seat;

// The place of the run that holds a number: at an end, where it is left as from first to last; alone in it; or between others.
#[derive(Clone, Copy)]
pub enum Held {
    AtEnd(usize, u64, u64),
    Alone(usize),
    Inside(usize),
}

// Where new missing numbers go: the place in the row and the first number of the run there.
#[derive(Clone, Copy)]
pub struct Gap {
    pub at: usize,
    pub first: u64,
}

// Are these a place of channels and a count of runs that a row holds?
fn there(at: usize, count: usize) -> bool
    ensures { result ≡ row_there at count }
{
    (at < Seat::COUNT) & (count <= Run::LIMIT)
}

// Whether the run from a to e, at place p, holds n, which is not above e, and what is left of it where n is its end.
fn left(p: usize, a: u64, e: u64, n: u64) -> Option<Held>
    ensures { result ≡ left_at p (run a e) n }
{
    if n < a {
        return None;
    }
    if n == a {
        if n < e {
            return Some(Held::AtEnd(p, n + 1, e));
        }
        return Some(Held::Alone(p));
    }
    if n == e {
        return Some(Held::AtEnd(p, a, n - 1));
    }
    Some(Held::Inside(p))
}

// Whether a run of the row holds n, by the first that does not end below n, and what is left of it where n is its end.
// By hand over the places of two arrays, as C holds them: the run that is found is read from both.
// No struct of its four places: only this and `room` take them, from fields that are lent to be written, and it would be built for each call.
pub fn search<'a>(
    first: &'a [u64; Seat::PLACES],
    last: &'a [u64; Seat::PLACES],
    at: usize,
    count: usize,
    n: u64,
) -> Option<Held>
    ensures { result ≡ search first.now last.now at count n }
{
    if there(at, count) {
        let b = at * Run::LIMIT;
        for j in 0..count {
            if n <= last[b + j] {
                return left(b + j, first[b + j], last[b + j], n);
            }
        }
    }
    None
}

// Where the numbers behind the highest go: the run that ends at the highest, or the next place, if the row has one.
pub fn room<'a>(
    first: &'a [u64; Seat::PLACES],
    last: &'a [u64; Seat::PLACES],
    at: usize,
    count: usize,
    highest: u64,
) -> Option<Gap>
    ensures { result ≡ room first.now last.now at count highest }
{
    if there(at, count) & (highest <= Seat::MOST) {
        if count == 0 {
            return Some(Gap {
                at: 0,
                first: highest + 1,
            });
        }
        let j = count - 1;
        let p = at * Run::LIMIT + j;
        if last[p] == highest {
            return Some(Gap {
                at: j,
                first: first[p],
            });
        }
        if count < Run::LIMIT {
            return Some(Gap {
                at: count,
                first: highest + 1,
            });
        }
    }
    None
}

// The numbers behind place p, up to place q, move one place down, and zero stands at q; nothing changes where these are no places.
pub fn close(all: &mut [u64; Seat::PLACES], p: usize, q: usize)
    ensures { all.new ≡ closed all.old p q }
{
    if (p <= q) & (q < Seat::PLACES) {
        all.copy_within(p + 1..q + 1, p);
        all[q] = 0;
    }
}

// A number goes to place p, and those from there on move one place up, to place q; nothing changes where these are no places.
pub fn open(all: &mut [u64; Seat::PLACES], p: usize, q: usize, number: u64)
    ensures { all.new ≡ opened all.old p q number }
{
    if (p <= q) & (q < Seat::PLACES) {
        all.copy_within(p..q, p + 1);
        all[p] = number;
    }
}

// The first numbers in the places of channels, zero behind them.
pub fn padded(numbers: &[u16]) -> [u16; Seat::COUNT]
    ensures { result ≡ padded channel_limit (take channel_limit numbers.now) }
{
    let mut out = [0; Seat::COUNT];
    let n = numbers.len().min(Seat::COUNT);
    out[..n].copy_from_slice(&numbers[..n]);
    out
}
