// Two trackers' arrays joined: what either received is received, and a refused join changes nothing.
#![tactic(auto)]

ghost use Rattle.std.specs.Prelude.{◌≡◌, Err, length};
ghost use Rattle.wire.specs.Number.{answer_number};
ghost use Rattle.seats.specs.Arrays.{held, held_mut, SamePlaces};
ghost use Rattle.std.specs.Cmp.Lexicographic.{pointwise};
ghost use Rattle.seats.specs.Places.{channel_limit};
ghost use Rattle.joins.specs.Join.{SameChannels, same_set_up, Joins, join_said, answered};
ghost use Rattle.joins.specs.Meet.{judged};

use laying::{fits, lay_all};
use seats::{Fields, FieldsMut, Seat};
use wire::answers;

mod laying;
mod walk;

// Why a join is refused.
#[derive(Clone, Copy, Debug, PartialEq, Eq)]
pub enum Refusal {
    TableFull,
    Malformed,
    SetUpsDiffer,
}

// The refusal's number.
impl From<Refusal> for u32 {
    ghost from_gives = { λ why n. n ≡ answer_number (join_said (Err why)) };

    fn from(why: Refusal) -> u32 {
        match why {
            Refusal::TableFull => answers::TABLE_FULL,
            Refusal::Malformed => answers::MALFORMED,
            Refusal::SetUpsDiffer => answers::SET_UPS_DIFFER,
        }
    }
}

// Are the numbers of two trackers' channels the same, place by place? As many as these are there, which the proof doesn't see in a struct's fields.
fn same<T: PartialEq>(a: &[T; Seat::COUNT], b: &[T; Seat::COUNT]) -> bool
    ensures { (length a.now ≡ channel_limit) × (length b.now ≡ channel_limit) × (result ≡ pointwise T.eq a.now b.now) }
{
    a == b
}

// Are two trackers of one set-up: as many channels, with the same numbers and first numbers, place by place?
fn same_set_up(mine: Fields<'_>, other: Fields<'_>) -> bool
    ensures { result ≡ same_set_up (held mine.entry) (held other.entry) }
{
    // `&` has no branch, so the proof has one path.
    (mine.count == other.count) & same(mine.numbers, other.numbers) & same(mine.from, other.from)
}

// May two trackers be joined? 10 for either, then 11, then 9.
fn judge(mine: Fields<'_>, other: Fields<'_>) -> Result<(), Refusal>
    ensures { result ≡ judged (held mine.entry) (held other.entry) }
{
    if !mine.sound() || !other.sound() {
        return Err(Refusal::Malformed);
    }
    if !same_set_up(mine, other) {
        return Err(Refusal::SetUpsDiffer);
    }
    if !fits(mine, other) {
        return Err(Refusal::TableFull);
    }
    Ok(())
}

// Joins the tracker of some fields with another, and these become those of the tracker joined; a refusal leaves them as they stood.
pub fn join_in(mine: &mut FieldsMut<'_>, other: Fields<'_>) -> Result<(), Refusal>
    ensures same_places { SamePlaces mine.old mine.new }
    ensures same_channels { SameChannels mine.old mine.new }
    ensures joins { Joins (held_mut mine.old) (held other.entry) (answered result (held_mut mine.new)) }
    ensures other_stays { held other.exit ≡ held other.entry }
{
    judge(mine.read(), other)?;
    lay_all(mine, other);
    Ok(())
}
