// The step that gives an entry with its price. A chain of its own, straight to the answer: no entry is built as one of seven things on the way.
ghost use Rattle.std.specs.Prelude.{◌≡◌, true, cond};
ghost use Rattle.wire.specs.Number.{plain};
ghost use Rattle.layout.specs.Layout.{Entries, of_snapshot, of_index, snapshot_entries, entry_group, entries, named, values};
ghost use Rattle.layout.specs.Group.{fit, next_offset};
ghost use Rattle.layout.specs.Paper.{means_groups};
ghost use Rattle.entries.specs.Entry.{same, level_said, entry_at, step_in, step, entry_found};
ghost use Rattle.entries.specs.Entry as of;
ghost use Rattle.entries.specs.Paper.{means_cursor};
ghost use Rattle.prices.specs.Entries.{thing_number, bare, saying, entry_from_c, price_of, price_left, priced_left, step_answer, no_entry};

use crate::entry::{Entry, StepAnswer, Thing, bare_entry, no_entry};
use entries::{Cursor, Says};
use layout::{Groups, entry, index_entry, width};
use record::Record;
use wire::Number;
use wire::answers::{NO_SUCH_ENTRY, PLAIN};

// An entry that says a price and at most a size.
fn priced(says: Thing, characters: u16, size: i64, own: i64, price: &mut i64) -> Entry
    ensures value { result ≡ bare (thing_number says) characters size }
    ensures price_after { price.new ≡ own }
{
    *price = own;
    bare_entry(says, characters, size)
}

// The level that some bytes start with.
fn leveled(e: &[u8], characters: u16, price: &mut i64) -> Entry
    ensures value { result ≡ saying characters (level_said (values snapshot_entries.fields e.now 0)) }
    ensures price_after { price.new ≡ price_left (price_of (level_said (values snapshot_entries.fields e.now 0))) price.old }
{
    let own = i64::at(e, entry::PRICE);
    let says = if own == 0 {
        Thing::LevelWithoutPrice
    } else {
        *price = own;
        Thing::Level
    };
    Entry {
        says: says as u32,
        characters,
        level: u16::at(e, entry::LEVEL),
        size: i64::at(e, entry::SIZE),
        order_count: i64::at(e, entry::ORDER_COUNT),
        shown: u32::at(e, entry::SHOWN_COUNT),
    }
}

// A price, unless it is the mark that there is no limit.
fn limit(characters: u16, own: i64, mark: i64, price: &mut i64) -> Entry
    ensures value { result ≡ saying characters (cond (same own mark) of.no_limit (of.price own)) }
    ensures price_after { price.new ≡ price_left (price_of (cond (same own mark) of.no_limit (of.price own))) price.old }
{
    if own == mark {
        return bare_entry(Thing::NoLimit, characters, 0);
    }
    priced(Thing::Price, characters, 0, own, price)
}

// The entry of a snapshot, and of an index, that some bytes start with.
fn snapshot_entry(e: &[u8], price: &mut i64) -> Entry
    ensures value { result ≡ entry_from_c (entry_at of_snapshot e.now 0) }
    ensures price_after { price.new ≡ price_left (price_of (entry_at of_snapshot e.now 0).says) price.old }
{
    let characters = u16::at(e, entry::ENTRY_TYPE);
    let own = i64::at(e, entry::PRICE);
    match characters {
        c if entries::is_level(c) => leveled(e, characters, price),
        c if entries::is_price(c) => priced(Thing::Price, characters, 0, own, price),
        Says::XE => limit(characters, own, Says::NO_UPPER_LIMIT, price),
        Says::XF => limit(characters, own, Says::NO_LOWER_LIMIT, price),
        Says::XG => bare_entry(Thing::Size, characters, i64::at(e, entry::SIZE)),
        c if entries::is_both(c) => {
            priced(Thing::Both, characters, i64::at(e, entry::SIZE), own, price)
        }
        _ => bare_entry(Thing::Unknown, characters, 0),
    }
}

fn index_entry(e: &[u8], price: &mut i64) -> Entry
    ensures value { result ≡ entry_from_c (entry_at of_index e.now 0) }
    ensures price_after { price.new ≡ price_left (price_of (entry_at of_index e.now 0).says) price.old }
{
    let characters = u16::at(e, index_entry::ENTRY_TYPE);
    if entries::is_index_price(characters) {
        return priced(
            Thing::Price,
            characters,
            0,
            i64::at(e, index_entry::PRICE),
            price,
        );
    }
    bare_entry(Thing::Unknown, characters, 0)
}

// No entry: the cursor stays.
fn none(answer: u32, at: Cursor) -> StepAnswer
    ensures { result ≡ record { answer = answer; entry = no_entry; next = at } }
{
    StepAnswer {
        answer,
        entry: no_entry(),
        next: at,
    }
}

// A snapshot's entries, or an index's.
trait Steps {
    // Whose they are.
    ghost whose: { Entries };

    // The groups that they are.
    fn groups() -> Groups
        ensures { means_groups result ≡ entry_group whose };

    // The step over an entry that is there, with some left behind it.
    fn over(s: &[u8], p: usize, left: u32, price: &mut i64) -> StepAnswer
        requires { fit (entry_group whose) s.now p 1 ≡ true }
        ensures value { result ≡ record { answer = plain; entry = entry_from_c (entry_at whose s.now p); next = record { offset = next_offset (entry_group whose) s.now p; left = left } } }
        ensures price_after { price.new ≡ price_left (price_of (entry_at whose s.now p).says) price.old };
}

struct OfSnapshot;

struct OfIndex;

impl Steps for OfSnapshot {
    ghost whose = { of_snapshot };

    fn groups() -> Groups {
        Groups::SnapshotEntries
    }

    fn over(s: &[u8], p: usize, left: u32, price: &mut i64) -> StepAnswer {
        let q = p + entry::WIDTH;
        let e = &s[p..q];
        let offset = q + width::QUANTITY * (u32::at(e, entry::SHOWN_COUNT) as usize);
        StepAnswer {
            answer: PLAIN,
            entry: snapshot_entry(e, price),
            next: Cursor { offset, left },
        }
    }
}

impl Steps for OfIndex {
    ghost whose = { of_index };

    fn groups() -> Groups {
        Groups::IndexEntries
    }

    fn over(s: &[u8], p: usize, left: u32, price: &mut i64) -> StepAnswer {
        let q = p + index_entry::WIDTH;
        StepAnswer {
            answer: PLAIN,
            entry: index_entry(&s[p..q], price),
            next: Cursor { offset: q, left },
        }
    }
}

// The step over such entries, after 4 and 5 for the entry's own fields and shown quantities.
fn step_in<E: Steps>(at: Cursor, body: &[u8], price: &mut i64) -> StepAnswer
    ensures value { result ≡ step_answer (step_in (entries E.whose) body.now (means_cursor at)) at }
    ensures price_after { price.new ≡ priced_left (entry_found (step_in (entries E.whose) body.now (means_cursor at))) price.old }
{
    if at.left == 0 {
        return none(NO_SUCH_ENTRY, at);
    }
    match layout::judge(E::groups(), body, at.offset, 1) {
        Ok(()) => E::over(body, at.offset, at.left - 1, price),
        Err(why) => none(u32::from(why), at),
    }
}

// The entry at a cursor with its price, and the cursor behind it; where the entry says no price, or there is none, the lent number is as it stood.
pub fn next(at: Cursor, kind: u32, body: &[u8], price: &mut i64) -> StepAnswer
    ensures value { result ≡ step_answer (step (named kind) body.now (means_cursor at)) at }
    ensures price_after { price.new ≡ priced_left (entry_found (step (named kind) body.now (means_cursor at))) price.old }
{
    match kind {
        Record::SNAPSHOT => step_in::<OfSnapshot>(at, body, price),
        Record::INDEX => step_in::<OfIndex>(at, body, price),
        _ => none(NO_SUCH_ENTRY, at),
    }
}
