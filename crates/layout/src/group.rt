// Groups behind a count: whether bytes have them, whether they are in range, and where each stands.
ghost use Rattle.std.specs.Prelude.{◌≡◌, true, false, ◌+◌, ◌*◌, ◌<◌, ◌≤◌, length};
ghost use Rattle.layout.specs.Kind as kind;
ghost use Rattle.layout.specs.Layout.{size, ranges};
ghost use Rattle.layout.specs.Group as of;
ghost use Rattle.layout.specs.Group.{fit, quantities, group_ranges, end_of, judge_groups, judge_all, offset_from};
ghost use Rattle.layout.specs.Paper.{means_groups, body_refusal, means_verdict};

use crate::range::{entry_price_in_range, natural_in_range, quantity_in_range, yes_no_in_range};
use crate::width::QUANTITY;
use crate::{entry, index_entry, stream, switch};
use wire::{Number, answers};

// The groups of a statistics body, of a security status, of an index, and of a snapshot.
#[derive(Clone, Copy)]
pub enum Groups {
    Streams,
    Switches,
    IndexEntries,
    SnapshotEntries,
}

// Why a body is refused: it lacks bytes of its layout, or a field is out of range.
#[derive(Clone, Copy)]
pub enum Refusal {
    NotItsLayout,
    OutOfRange,
}

// Its number.
impl From<Refusal> for u32 {
    ghost from_gives = { λ x n. n ≡ body_refusal x };

    fn from(why: Refusal) -> u32 {
        match why {
            Refusal::NotItsLayout => answers::NOT_ITS_LAYOUT,
            Refusal::OutOfRange => answers::OUT_OF_RANGE,
        }
    }
}

// The verdict on a body: that on its groups, and 5 where a field in front of them is out of range.
#[tactic(auto, unfolding(wire::specs::Answer::guard))]
pub fn also(verdict: Result<(), Refusal>, good: bool) -> Result<(), Refusal>
    ensures { means_verdict result ≡ of.also good (means_verdict verdict) }
{
    verdict?;
    if good {
        Ok(())
    } else {
        Err(Refusal::OutOfRange)
    }
}

// The bytes of a group's fields.
fn width(g: Groups) -> usize
    ensures { (result ≡ size (means_groups g).fields) × (kind.width kind.group_count ≤ result) }
{
    match g {
        Groups::Streams => stream::WIDTH,
        Groups::Switches => switch::WIDTH,
        Groups::IndexEntries => index_entry::WIDTH,
        Groups::SnapshotEntries => entry::WIDTH,
    }
}

// How many quantities a group shows, by the bytes that begin with its fields.
fn shown(g: Groups, e: &[u8]) -> usize
    requires { size (means_groups g).fields ≤ length e.now }
    ensures { (result ≡ of.shown (means_groups g) e.now 0) × (result < 4294967296) }
{
    match g {
        Groups::Streams => 0,
        Groups::Switches => 0,
        Groups::IndexEntries => 0,
        Groups::SnapshotEntries => u32::at(&e[0..entry::WIDTH], entry::SHOWN_COUNT) as usize,
    }
}

// Whether the fields of a group, with which some bytes begin, are in range.
fn fields_in(g: Groups, e: &[u8]) -> bool
    requires { size (means_groups g).fields ≤ length e.now }
    ensures { result ≡ ranges (means_groups g).fields e.now 0 }
{
    match g {
        Groups::Streams => true,
        Groups::Switches => yes_no_in_range(u16::at(&e[0..switch::WIDTH], switch::YES_NO)),
        Groups::IndexEntries => entry_price_in_range(u64::at(
            &e[0..index_entry::WIDTH],
            index_entry::PRICE,
        )),
        Groups::SnapshotEntries => {
            let f = &e[0..entry::WIDTH];
            entry_price_in_range(u64::at(f, entry::PRICE))
                & (quantity_in_range(u64::at(f, entry::SIZE))
                    & natural_in_range(u64::at(f, entry::ORDER_COUNT)))
        }
    }
}

// Whether n quantities that are there are in range.
fn quantities_in(n: usize, s: &[u8], at: usize) -> bool
    requires { at + kind.width kind.quantity * n ≤ length s.now }
    ensures { result ≡ quantities n s.now at }
{
    let mut p = at;
    for _ in 0..n {
        let q = p + QUANTITY;
        if !quantity_in_range(u64::at(&s[p..q], 0)) {
            return false;
        }
        p = q;
    }
    true
}

// Where k groups from an offset on end, if the bytes have them.
fn end_of(g: Groups, s: &[u8], at: usize, k: u32) -> Option<usize>
    ensures { result ≡ end_of (means_groups g) s.now at k }
{
    let n = s.len();
    let w = width(g);
    let mut p = at;
    for _ in 0..k {
        if n < p {
            return None;
        }
        if n - p < w {
            return None;
        }
        let q = p + w;
        let m = shown(g, &s[p..q]);
        if n - q < QUANTITY * m {
            return None;
        }
        p = q + QUANTITY * m;
    }
    Some(p)
}

// Whether k groups that are there are in range.
fn groups_in(g: Groups, s: &[u8], at: usize, k: u32) -> bool
    requires { fit (means_groups g) s.now at k ≡ true }
    ensures { result ≡ group_ranges (means_groups g) s.now at k }
{
    let w = width(g);
    let mut p = at;
    for _ in 0..k {
        let q = p + w;
        let e = &s[p..q];
        let m = shown(g, e);
        if !(fields_in(g, e) & quantities_in(m, s, q)) {
            return false;
        }
        p = q + QUANTITY * m;
    }
    true
}

// Judges k groups from an offset on: 4 where the bytes lack some, else 5 where a field or a shown quantity is out of range.
pub fn judge(g: Groups, s: &[u8], at: usize, k: u32) -> Result<(), Refusal>
    ensures { means_verdict result ≡ judge_groups (means_groups g) s.now at k }
{
    match end_of(g, s, at, k) {
        Some(_) => also(Ok(()), groups_in(g, s, at, k)),
        None => Err(Refusal::NotItsLayout),
    }
}

// Judges bytes that are to be k groups and nothing else.
pub fn judge_all(g: Groups, s: &[u8], k: u32) -> Result<(), Refusal>
    ensures { means_verdict result ≡ judge_all (means_groups g) s.now k }
{
    match end_of(g, s, 0, k) {
        Some(end) if end == s.len() => also(Ok(()), groups_in(g, s, 0, k)),
        _ => Err(Refusal::NotItsLayout),
    }
}

// Where group i stands, counted from an offset on; that offset itself where the bytes lack one before it.
pub fn offset_from(g: Groups, s: &[u8], at: usize, i: u32) -> usize
    ensures { result ≡ offset_from (means_groups g) s.now at i }
{
    end_of(g, s, at, i).unwrap_or(at)
}
