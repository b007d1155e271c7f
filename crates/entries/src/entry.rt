// Entries: what each says, and entries and their shown quantities by position.
ghost use Rattle.std.specs.Prelude.{◌≡◌, true, cond, [], ◌∷◌, pos, IfSome};
ghost use Rattle.layout.specs.Kind.{among};
ghost use Rattle.layout.specs.Layout as listed;
ghost use Rattle.layout.specs.Layout.{of_snapshot, of_index, entry_group, entries};
ghost use Rattle.layout.specs.Group.{fit, next_offset, group_offset, count_at};
ghost use Rattle.layout.specs.Paper.{means_groups};
ghost use Rattle.record.specs.Asked.{below};
ghost use Rattle.entries.specs.Entry.{entries_start, levels, prices, boths, index_prices, same, says_in, entry_at, entry_in, entry_of, quantity_at, quantity_in, quantity_of};
ghost use Rattle.entries.specs.Entry as of;
ghost use Rattle.entries.specs.Paper.{means_says, means_entry, means_asked, means_asked_entry, means_quantity};

use layout::{Groups, Refusal, entry, index_entry, width};
use record::{Record, judge};
use wire::Number;

// Where the count of entries stands, and where the first does: behind the common part. An index has both where a snapshot has.
pub(crate) const COUNT: usize = layout::snapshot::COUNT;

pub(crate) const START: usize = layout::snapshot::SIZE;

// What an entry says: exactly one of seven things.
#[derive(Clone, Copy)]
pub enum Says {
    Level {
        entry_price: i64,
        size: i64,
        level: u16,
        order_count: i64,
        shown: u32,
    },
    LevelWithoutPrice {
        size: i64,
        level: u16,
        order_count: i64,
        shown: u32,
    },
    Price {
        entry_price: i64,
    },
    Size {
        size: i64,
    },
    Both {
        entry_price: i64,
        size: i64,
    },
    NoLimit,
    Unknown,
}

// An entry: its two type characters, the first the higher byte, and what it says.
#[derive(Clone, Copy)]
pub struct Entry {
    pub characters: u16,
    pub says: Says,
}

// Which type characters are a level, a price, price and size; and a price in an index. `0` is 0x3020, `x1` is 0x7831.
pub fn is_level(characters: u16) -> bool
    ensures { result ≡ among levels characters }
{
    matches!(characters, 0x3020 | 0x3120)
}

pub fn is_price(characters: u16) -> bool
    ensures { result ≡ among prices characters }
{
    matches!(
        characters,
        0x3220
            | 0x3420
            | 0x3720
            | 0x3820
            | 0x3920
            | 0x7831
            | 0x7832
            | 0x7835
            | 0x7836
            | 0x7837
            | 0x7838
            | 0x7839
            | 0x786a
            | 0x786b
    )
}

pub fn is_both(characters: u16) -> bool
    ensures { result ≡ among boths characters }
{
    matches!(characters, 0x7833 | 0x7834)
}

pub fn is_index_price(characters: u16) -> bool
    ensures { result ≡ among index_prices characters }
{
    matches!(characters, 0x3320 | 0x7861 | 0x7862 | 0x7863 | 0x7864)
}

impl Says {
    // The characters `xe` and `xf`, which say a price or no limit, and `xg`, which says a size. Numbers, as C has an entry's characters.
    pub const XE: u16 = 0x7865;

    pub const XF: u16 = 0x7866;

    pub const XG: u16 = 0x7867;

    // The prices by which `xe` and `xf` say that there is no limit.
    pub const NO_UPPER_LIMIT: i64 = 999_999_999_999_900;

    pub const NO_LOWER_LIMIT: i64 = -Says::NO_UPPER_LIMIT;
}

// A price, unless it is the mark that there is no limit.
fn limit(price: i64, mark: i64) -> Says
    ensures { means_says result ≡ cond (same price mark) of.no_limit (of.price price) }
{
    if price == mark {
        Says::NoLimit
    } else {
        Says::Price { entry_price: price }
    }
}

// What an entry of a snapshot says.
fn said(characters: u16, price: i64, size: i64, level: u16, orders: i64, shown: u32) -> Says
    ensures { means_says result ≡ says_in of_snapshot characters (pos characters ∷ price ∷ size ∷ pos level ∷ orders ∷ pos shown ∷ []) }
{
    match characters {
        c if is_level(c) => {
            if price == 0 {
                Says::LevelWithoutPrice {
                    size,
                    level,
                    order_count: orders,
                    shown,
                }
            } else {
                Says::Level {
                    entry_price: price,
                    size,
                    level,
                    order_count: orders,
                    shown,
                }
            }
        }
        c if is_price(c) => Says::Price { entry_price: price },
        Says::XE => limit(price, Says::NO_UPPER_LIMIT),
        Says::XF => limit(price, Says::NO_LOWER_LIMIT),
        Says::XG => Says::Size { size },
        c if is_both(c) => Says::Both {
            entry_price: price,
            size,
        },
        _ => Says::Unknown,
    }
}

// What an entry of an index says.
fn said_in_index(characters: u16, price: i64) -> Says
    ensures { means_says result ≡ says_in of_index characters (pos characters ∷ price ∷ []) }
{
    if is_index_price(characters) {
        Says::Price { entry_price: price }
    } else {
        Says::Unknown
    }
}

// The entry of a snapshot, and of an index, that some bytes start with.
fn snapshot_entry(e: &[u8]) -> Entry
    ensures { means_entry result ≡ entry_at of_snapshot e.now 0 }
{
    let characters = u16::at(e, entry::ENTRY_TYPE);
    let says = said(
        characters,
        i64::at(e, entry::PRICE),
        i64::at(e, entry::SIZE),
        u16::at(e, entry::LEVEL),
        i64::at(e, entry::ORDER_COUNT),
        u32::at(e, entry::SHOWN_COUNT),
    );
    Entry { characters, says }
}

fn index_entry(e: &[u8]) -> Entry
    ensures { means_entry result ≡ entry_at of_index e.now 0 }
{
    let characters = u16::at(e, index_entry::ENTRY_TYPE);
    let says = said_in_index(characters, i64::at(e, index_entry::PRICE));
    Entry { characters, says }
}

// A snapshot's entries, or an index's: at an offset that has one, the entry, what is behind it, and what it shows.
pub(crate) trait Entries {
    // Whose they are.
    ghost whose: { listed.Entries };

    // The groups that they are.
    fn groups() -> Groups
        ensures { means_groups result ≡ entry_group whose };

    // The entry at an offset.
    fn entry_at(s: &[u8], p: usize) -> Entry
        requires { fit (entry_group whose) s.now p 1 ≡ true }
        ensures { means_entry result ≡ entry_at whose s.now p };

    // The offset behind an entry and its shown quantities.
    fn behind(s: &[u8], p: usize) -> usize
        requires { fit (entry_group whose) s.now p 1 ≡ true }
        ensures { result ≡ next_offset (entry_group whose) s.now p };

    // Quantity j of those that the entry at an offset shows.
    fn quantity_at(s: &[u8], p: usize, j: u32) -> Option<i64>
        requires { fit (entry_group whose) s.now p 1 ≡ true }
        ensures { means_asked (λ z. z) result ≡ quantity_at (entry_group whose) s.now p j };
}

pub(crate) struct OfSnapshot;

pub(crate) struct OfIndex;

impl Entries for OfSnapshot {
    ghost whose = { of_snapshot };

    fn groups() -> Groups {
        Groups::SnapshotEntries
    }

    fn entry_at(s: &[u8], p: usize) -> Entry {
        let q = p + entry::WIDTH;
        snapshot_entry(&s[p..q])
    }

    fn behind(s: &[u8], p: usize) -> usize {
        let q = p + entry::WIDTH;
        let e = &s[p..q];
        q + width::QUANTITY * (u32::at(e, entry::SHOWN_COUNT) as usize)
    }

    fn quantity_at(s: &[u8], p: usize, j: u32) -> Option<i64> {
        if j < u32::at(s, p + entry::SHOWN_COUNT) {
            Some(i64::at(s, p + entry::WIDTH + width::QUANTITY * (j as usize)))
        } else {
            None
        }
    }
}

impl Entries for OfIndex {
    ghost whose = { of_index };

    fn groups() -> Groups {
        Groups::IndexEntries
    }

    fn entry_at(s: &[u8], p: usize) -> Entry {
        let q = p + index_entry::WIDTH;
        index_entry(&s[p..q])
    }

    fn behind(_s: &[u8], p: usize) -> usize {
        p + index_entry::WIDTH
    }

    // It shows none.
    fn quantity_at(_s: &[u8], _p: usize, _j: u32) -> Option<i64> {
        None
    }
}

// Where entry i stands, of entries that are all there.
fn offset_of<E: Entries>(s: &[u8], i: u32) -> Option<usize>
    requires { fit (entry_group E.whose) s.now entries_start (count_at (entries E.whose) entries_start s.now) ≡ true }
    ensures is { means_asked (λ p. p) result ≡ below i (count_at (entries E.whose) entries_start s.now) (group_offset (entry_group E.whose) s.now entries_start i) }
    ensures there { IfSome result (λ p. fit (entry_group E.whose) s.now p 1 ≡ true) }
{
    if i < u32::at(s, COUNT) {
        Some(layout::offset_from(E::groups(), s, START, i))
    } else {
        None
    }
}

// Entry i of entries that are all there.
fn entry_in<E: Entries>(s: &[u8], i: u32) -> Option<Entry>
    requires { fit (entry_group E.whose) s.now entries_start (count_at (entries E.whose) entries_start s.now) ≡ true }
    ensures { means_asked means_entry result ≡ entry_in (entries E.whose) entries_start s.now i }
{
    let p = offset_of::<E>(s, i)?;
    Some(E::entry_at(s, p))
}

// Shown quantity j of entry i, of entries that are all there.
fn quantity_in<E: Entries>(s: &[u8], i: u32, j: u32) -> Option<i64>
    requires { fit (entry_group E.whose) s.now entries_start (count_at (entries E.whose) entries_start s.now) ≡ true }
    ensures { means_asked (λ z. z) result ≡ quantity_in (entries E.whose) entries_start s.now i j }
{
    let p = offset_of::<E>(s, i)?;
    E::quantity_at(s, p, j)
}

// Entry i of a body, from 0, after 4 and 5 for the whole of it.
pub fn entry_of(kind: u32, body: &[u8], i: u32) -> Result<Option<Entry>, Refusal>
    ensures { means_asked_entry result ≡ entry_of kind body.now i }
{
    judge(kind, body)?;
    Ok(match kind {
        Record::SNAPSHOT => entry_in::<OfSnapshot>(body, i),
        Record::INDEX => entry_in::<OfIndex>(body, i),
        _ => None,
    })
}

// Shown quantity j of entry i, each from 0, whatever the entry says: the wire's count decides.
pub fn quantity_of(kind: u32, body: &[u8], i: u32, j: u32) -> Result<Option<i64>, Refusal>
    ensures { means_quantity result ≡ quantity_of kind body.now i j }
{
    judge(kind, body)?;
    Ok(match kind {
        Record::SNAPSHOT => quantity_in::<OfSnapshot>(body, i, j),
        Record::INDEX => quantity_in::<OfIndex>(body, i, j),
        _ => None,
    })
}
