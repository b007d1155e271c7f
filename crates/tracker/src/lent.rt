// Arrivals on the lent fields of a tracker, which become those of the next one; a refusal leaves them as they stood.
ghost use Rattle.std.specs.Prelude.{◌≡◌, ◌<◌, ◌≤◌, pos, get_or, Ok};
ghost use Rattle.gaps.specs.Limits.{most_number};
ghost use Rattle.gaps.specs.Channel.{tick, heartbeat};
ghost use Rattle.seats.specs.Places.{place_count};
ghost use Rattle.seats.specs.Arrays.{held_mut, SamePlaces};
ghost use Rattle.rows.specs.declared.Held.TheVariants.{Alone, Inside};
ghost use Rattle.joins.specs.Join.{SameChannels};
ghost use Rattle.tracker.specs.Places.{made};
ghost use Rattle.tracker.specs.Arrived.{on, arrive, arrival_said, answered};
ghost use Rattle.tracker.specs.Inside.{SoundIn, RoomIn, stepped, raising, Changeable, late_as};

use crate::refused::judge;
use crate::signs::natural;
use crate::{News, Refusal};
use gaps::Run;
use rows::{Held, close, open, room, search};
use seats::FieldsMut;

// A tick on a channel: its answer, and the fields of the next tracker.
pub fn tick_in(fields: &mut FieldsMut<'_>, channel: u16, number: i64) -> Result<News, Refusal>
    ensures same_places { SamePlaces fields.old fields.new }
    ensures same_channels { SameChannels fields.old fields.new }
    ensures arrives { answered result (made (held_mut fields.new)) ≡ arrive (made (held_mut fields.old)) (on channel (tick number)) }
{
    let n = natural(number);
    let at = judge(fields.read(), channel, n < 1)?;
    ticked(fields, at, n)
}

// A channel heartbeat: its answer, and the fields of the next tracker.
pub fn heartbeat_in(
    fields: &mut FieldsMut<'_>,
    channel: u16,
    number: i64,
    end: bool,
) -> Result<News, Refusal>
    ensures same_places { SamePlaces fields.old fields.new }
    ensures same_channels { SameChannels fields.old fields.new }
    ensures arrives { answered result (made (held_mut fields.new)) ≡ arrive (made (held_mut fields.old)) (on channel (heartbeat number end)) }
{
    let at = judge(fields.read(), channel, number < 0)?;
    let m = natural(number);
    heard(fields, at, m, end)
}

// A tick of n on the channel at a place.
fn ticked(fields: &mut FieldsMut<'_>, at: usize, n: u64) -> Result<News, Refusal>
    requires { SoundIn (made (held_mut fields.old)) at × (1 ≤ n) }
    ensures same_places { SamePlaces fields.old fields.new }
    ensures same_channels { SameChannels fields.old fields.new }
    ensures steps { answered result (made (held_mut fields.new)) ≡ stepped at (tick (pos n)) (made (held_mut fields.old)) }
{
    let before = fields.highest[at];
    // The common path: the next number, and nothing else changes.
    if before == n - 1 {
        fields.highest[at] = n;
        return Ok(News::New);
    }
    if before < n {
        let mark = fields.ended[at] == 1;
        return raise(fields, at, n - 1, n, mark, News::New);
    }
    if n < fields.from[at] {
        return Ok(News::BeforeStart);
    }
    let Some(held) = search(fields.first, fields.last, at, fields.counts[at], n) else {
        return Ok(News::Duplicate);
    };
    late(fields, held, at, n)
}

// A channel heartbeat of last number m on the channel at a place.
fn heard(fields: &mut FieldsMut<'_>, at: usize, m: u64, end: bool) -> Result<News, Refusal>
    requires { SoundIn (made (held_mut fields.old)) at }
    ensures same_places { SamePlaces fields.old fields.new }
    ensures same_channels { SameChannels fields.old fields.new }
    ensures steps { answered result (made (held_mut fields.new)) ≡ stepped at (heartbeat (pos m) end) (made (held_mut fields.old)) }
{
    let before = fields.ended[at] == 1;
    let marked = before | end;
    if fields.highest[at] < m {
        return raise(fields, at, m, m, marked, News::Heard);
    }
    fields.ended[at] = u8::from(marked);
    Ok(News::Heard)
}

// A number that is missing, by the run that the search found.
fn late(fields: &mut FieldsMut<'_>, held: Held, at: usize, n: u64) -> Result<News, Refusal>
    requires { RoomIn (made (held_mut fields.old)) at × (1 ≤ n) × (n ≤ most_number) × Changeable held (get_or fields.old.counts.now at 0) }
    ensures same_places { SamePlaces fields.old fields.new }
    ensures same_channels { SameChannels fields.old fields.new }
    ensures steps { answered result (made (held_mut fields.new)) ≡ late_as held at n (made (held_mut fields.old)) }
{
    match held {
        Held::AtEnd(p, a, e) => {
            fields.first[p] = a;
            fields.last[p] = e;
            Ok(News::Late)
        }
        Held::Alone(p) => Ok(leave(fields, at, p)),
        Held::Inside(p) => split(fields, at, p, n),
    }
}

// All numbers behind the highest up to m become missing, under another highest and mark; or 9.
fn raise(
    fields: &mut FieldsMut<'_>,
    at: usize,
    m: u64,
    top: u64,
    mark: bool,
    news: News,
) -> Result<News, Refusal>
    requires { SoundIn (made (held_mut fields.old)) at }
    ensures same_places { SamePlaces fields.old fields.new }
    ensures same_channels { SameChannels fields.old fields.new }
    ensures raises { answered result (made (held_mut fields.new)) ≡ raising at (arrival_said (Ok news)) top mark m (made (held_mut fields.old)) }
{
    let held = fields.counts[at];
    let before = fields.highest[at];
    let Some(gap) = room(fields.first, fields.last, at, held, before) else {
        return Err(Refusal::TableFull);
    };
    let j = gap.at;
    let p = at * Run::LIMIT + j;
    fields.first[p] = gap.first;
    fields.last[p] = m;
    fields.counts[at] = j + 1;
    fields.highest[at] = top;
    fields.ended[at] = u8::from(mark);
    Ok(news)
}

// The run at place p goes, and those behind it close up.
fn leave(fields: &mut FieldsMut<'_>, at: usize, p: usize) -> News
    requires { RoomIn (made (held_mut fields.old)) at × (1 ≤ get_or fields.old.counts.now at 0) }
    ensures same_places { SamePlaces fields.old fields.new }
    ensures same_channels { SameChannels fields.old fields.new }
    ensures steps { answered (Ok result) (made (held_mut fields.new)) ≡ late_as (Alone p) at 0 (made (held_mut fields.old)) }
{
    let left = fields.counts[at] - 1;
    let q = at * Run::LIMIT + left;
    close(fields.first, p, q);
    close(fields.last, p, q);
    fields.counts[at] = left;
    News::Late
}

// The run at place p splits around n; or 9.
fn split(fields: &mut FieldsMut<'_>, at: usize, p: usize, n: u64) -> Result<News, Refusal>
    requires { RoomIn (made (held_mut fields.old)) at × (p < place_count) × (1 ≤ n) × (n ≤ most_number) }
    ensures same_places { SamePlaces fields.old fields.new }
    ensures same_channels { SameChannels fields.old fields.new }
    ensures steps { answered result (made (held_mut fields.new)) ≡ late_as (Inside p) at n (made (held_mut fields.old)) }
{
    let held = fields.counts[at];
    if held == Run::LIMIT {
        return Err(Refusal::TableFull);
    }
    let q = at * Run::LIMIT + held;
    open(fields.first, p + 1, q, n + 1);
    open(fields.last, p, q, n - 1);
    fields.counts[at] = held + 1;
    Ok(News::Late)
}
