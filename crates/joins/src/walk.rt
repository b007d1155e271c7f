// The runs that two records of one channel share: what neither received, by one walk over both rows.
ghost use Rattle.std.specs.Prelude.{[], ◌≡◌, ◌+◌, ◌≤◌, ◌<◌};
ghost use Rattle.gaps.specs.Gaps.{larger};
ghost use Rattle.seats.specs.Places.{channel_limit, place_count};
ghost use Rattle.joins.specs.Meet.{shared, met_in, run_at, InRow, Reaches, Laid, laid, laid_one, laid_all};
ghost use Rattle.joins.specs.Rows.{RowThere, reached, row_in};

use gaps::Run;
use seats::{Fields, Seat};

// A channel's row in a tracker's arrays: its runs, from a place on, and its highest number.
#[derive(Clone, Copy)]
pub(crate) struct Row<'a> {
    pub first: &'a [u64; Seat::PLACES],
    pub last: &'a [u64; Seat::PLACES],
    pub begin: usize,
    pub count: usize,
    pub highest: u64,
}

// A row's runs with the numbers behind its highest: how many runs, the place of the one with those numbers, and its first number.
// Where no run has them, the place is behind all: an Option would be asked for each run of the walk.
#[derive(Clone, Copy)]
struct Reach {
    count: usize,
    at: usize,
    first: u64,
}

impl<'a> Row<'a> {
    // The row of the channel at a place.
    pub fn of(fields: Fields<'a>, at: usize) -> Row<'a>
        requires { at < channel_limit }
        ensures { result ≡ row_in fields.entry at }
    {
        Row {
            first: fields.first,
            last: fields.last,
            begin: at * Run::LIMIT,
            count: fields.counts[at],
            highest: fields.highest[at],
        }
    }

    // Its runs, and the numbers behind the highest up to top.
    fn reaching(self, top: u64) -> Reach
        requires { RowThere self }
        ensures { Reaches self.entry.first.now self.entry.last.now self.entry.begin self.entry.count self.entry.highest top result }
    {
        let Row {
            first,
            last,
            begin,
            count,
            highest,
        } = self;
        if top <= highest {
            return Reach {
                count,
                at: count,
                first: 0,
            };
        }
        if count == 0 {
            return Reach {
                count: 1,
                at: 0,
                first: highest + 1,
            };
        }
        let j = count - 1;
        if last[begin + j] == highest {
            return Reach {
                count,
                at: j,
                first: first[begin + j],
            };
        }
        Reach {
            count: count + 1,
            at: count,
            first: highest + 1,
        }
    }

    // Run j of them.
    fn run(self, r: Reach, top: u64, j: usize) -> Run
        requires { RowThere self × InRow r.at j }
        ensures { result ≡ run_at self.entry.first.now self.entry.last.now self.entry.begin r top j }
    {
        if j == r.at {
            return Run {
                first: r.first,
                last: top,
            };
        }
        let at = self.begin + j;
        Run {
            first: self.first[at],
            last: self.last[at],
        }
    }
}

// Where the runs go that two rows share.
pub(crate) trait Sink {
    // how many runs went there, and their numbers
    ghost holds: { Self → Laid };

    fn put(&mut self, r: Run)
        requires { (holds self.old).count ≤ place_count }
        ensures { holds self.new ≡ laid_one (holds self.old) r };
}

// The runs counted, and not laid: so the walk takes half the time.
#[derive(Clone, Copy)]
pub(crate) struct Counted {
    pub count: usize,
}

impl Sink for Counted {
    ghost holds = { λ s. laid s.count [] [] };

    fn put(&mut self, _: Run) {
        self.count += 1;
    }
}

// The runs laid in a row of their own: how many, and as many of them as have a place. Two arrays and a count, as a tracker has them, which C holds.
#[derive(Clone, Copy)]
pub(crate) struct Kept {
    pub count: usize,
    pub first: [u64; Run::LIMIT],
    pub last: [u64; Run::LIMIT],
}

impl Sink for Kept {
    ghost holds = { λ s. laid s.count s.first s.last };

    fn put(&mut self, r: Run) {
        let k = self.count;
        self.count = k + 1;
        if k < Run::LIMIT {
            self.first[k] = r.first;
            self.last[k] = r.last;
        }
    }
}

// What two runs share goes to the sink.
fn put_shared<S: Sink>(out: &mut S, r: Run, s: Run)
    requires { (S.holds out.old).count ≤ place_count }
    ensures { ((S.holds out.new).count ≤ (S.holds out.old).count + 1) × (S.holds out.new ≡ laid_all (S.holds out.old) (shared r s)) }
{
    let a = r.first.max(s.first);
    let e = r.last.min(s.last);
    if a <= e {
        out.put(Run { first: a, last: e });
    }
}

// What the rows of two trackers' channels share, each with the numbers behind its highest up to the larger one, goes to a sink that is empty.
pub(crate) fn meet<'a, S: Sink>(mine: Row<'a>, other: Row<'a>, out: &mut S)
    requires { RowThere mine × RowThere other × ((S.holds out.old).count ≡ 0) }
    ensures { S.holds out.new ≡ laid_all (S.holds out.old) (met_in (reached mine.entry (larger mine.entry.highest other.entry.highest)) (reached other.entry (larger mine.entry.highest other.entry.highest))) }
{
    let top = mine.highest.max(other.highest);
    let x = mine.reaching(top);
    let y = other.reaching(top);
    let n = x.count;
    let m = y.count;
    if n == 0 {
        return;
    }
    if m == 0 {
        return;
    }
    let mut r = mine.run(x, top, 0);
    let mut s = other.run(y, top, 0);
    let mut i: usize = 0;
    let mut j: usize = 0;
    // No `for`: each step is one on of the one row or of the other.
    while i < n {
        put_shared(out, r, s);
        if r.last <= s.last {
            i += 1;
            if i == n {
                return;
            }
            r = mine.run(x, top, i);
        } else {
            j += 1;
            if j == m {
                return;
            }
            s = other.run(y, top, j);
        }
    }
}
