// The channels of two trackers joined, in two passes: whether all runs have a place, and then each record in its places.
ghost use Rattle.std.specs.Prelude.{◌≡◌, not, ◌||◌, ◌*◌, ◌≤◌, ◌<◌, ltb, eqb, length, get_or};
ghost use Rattle.std.proofs.lemmas.List.Edits.{sets};
ghost use Rattle.gaps.specs.Limits.{run_limit};
ghost use Rattle.seats.specs.Arrays.{held, held_mut, SamePlaces};
ghost use Rattle.seats.specs.Places.{channel_limit};
ghost use Rattle.seats.specs.Channels.{mark};
ghost use Rattle.joins.specs.Join.{overfull, SameChannels};
ghost use Rattle.joins.specs.Meet.{met_runs, SameIfNone, CountsIn, FitsAt, FitsAll, joined_at, joined_all};

use crate::walk::{Counted, Kept, Row, meet};
use gaps::Run;
use seats::{Fields, FieldsMut, Seat};

// An ended mark that is set where either of two is.
fn either(a: u8, b: u8) -> u8
    ensures { result ≡ mark (eqb a 1 || eqb b 1) }
{
    u8::from(a == 1 || b == 1)
}

// A row of numbers in the places of the channel at a place, which are the same where the channel has no run, neither before nor now.
fn copy(all: &mut [u64; Seat::PLACES], at: usize, runs: usize, row: &[u64; Run::LIMIT])
    requires { (at < channel_limit) × (length row.now ≡ run_limit) × SameIfNone runs all.old at row.now }
    ensures { all.new ≡ sets all.old (at * run_limit) row.now }
{
    if runs == 0 {
        return;
    }
    let b = at * Run::LIMIT;
    all[b..b + Run::LIMIT].copy_from_slice(row);
}

// Has the channel at a place too many runs, joined? It has no more than both have, and one behind the highest of each.
fn over(at: usize, mine: Fields<'_>, other: Fields<'_>) -> bool
    requires { (at < channel_limit) × (get_or mine.counts.now at 0 ≤ run_limit) × (get_or other.counts.now at 0 ≤ run_limit) }
    ensures { result ≡ ltb run_limit (length (met_runs (held mine.entry) (held other.entry) at)) }
{
    let has = mine.counts[at];
    let others = other.counts[at];
    if has + others + 2 <= Run::LIMIT {
        return false;
    }
    let mut runs = Counted { count: 0 };
    meet(Row::of(mine, at), Row::of(other, at), &mut runs);
    Run::LIMIT < runs.count
}

// Have all runs of each of the channels, joined, a place?
pub(crate) fn fits(mine: Fields<'_>, other: Fields<'_>) -> bool
    requires { (mine.count ≤ channel_limit) × CountsIn mine.counts.now mine.count × CountsIn other.counts.now mine.count }
    ensures { result ≡ not (overfull (met_runs (held mine.entry) (held other.entry)) 0 mine.entry.count) }
{
    for i in 0..mine.count {
        if over(i, mine, other) {
            return false;
        }
    }
    true
}

// The channel at a place, joined.
fn lay(at: usize, mine: &mut FieldsMut<'_>, other: Fields<'_>)
    requires { FitsAt (held_mut mine.old) (held other) at }
    ensures same_places { SamePlaces mine.old mine.new }
    ensures same_channels { SameChannels mine.old mine.new }
    ensures joined { held_mut mine.new ≡ joined_at at (held_mut mine.old) (held other.entry) }
{
    let mut row = Kept {
        count: 0,
        first: [0; Run::LIMIT],
        last: [0; Run::LIMIT],
    };
    let has = mine.counts[at];
    meet(Row::of(mine.read(), at), Row::of(other, at), &mut row);
    let n = row.count;
    copy(mine.first, at, has + n, &row.first);
    copy(mine.last, at, has + n, &row.last);
    mine.counts[at] = n;
    mine.highest[at] = mine.highest[at].max(other.highest[at]);
    mine.ended[at] = either(mine.ended[at], other.ended[at]);
}

// The channels, joined one after the other.
pub(crate) fn lay_all(mine: &mut FieldsMut<'_>, other: Fields<'_>)
    requires { FitsAll (held_mut mine.old) (held other) mine.old.count }
    ensures same_places { SamePlaces mine.old mine.new }
    ensures same_channels { SameChannels mine.old mine.new }
    ensures joined { held_mut mine.new ≡ joined_all mine.old.count (held_mut mine.old) (held other.entry) }
{
    for i in 0..mine.count {
        lay(i, mine, other);
    }
}
