// A cursor over the entries of a body.
ghost use Rattle.std.specs.Prelude.{◌≡◌};
ghost use Rattle.layout.specs.Layout.{entries, named};
ghost use Rattle.entries.specs.Entry.{start, step_in, step};
ghost use Rattle.entries.specs.Paper.{means_cursor, means_step};

use crate::Entry;
use crate::entry::{COUNT, Entries, OfIndex, OfSnapshot, START};
use layout::Refusal;
use record::Record;
use wire::Number;

// The offset of the next entry, and how many are left. C interface: it crosses by value, without the body, so it is no Iterator.
#[repr(C)]
#[derive(Clone, Copy)]
pub struct Cursor {
    pub offset: usize,
    pub left: u32,
}

// The entry at a cursor and the cursor behind it, after 4 and 5 for its own fields and shown quantities.
fn step_in<E: Entries>(body: &[u8], at: Cursor) -> Result<Option<(Entry, Cursor)>, Refusal>
    ensures { means_step result ≡ step_in (entries E.whose) body.now (means_cursor at) }
{
    if at.left == 0 {
        return Ok(None);
    }
    layout::judge(E::groups(), body, at.offset, 1)?;
    let next = Cursor {
        offset: E::behind(body, at.offset),
        left: at.left - 1,
    };
    Ok(Some((E::entry_at(body, at.offset), next)))
}

impl Cursor {
    // The cursor before the first entry of a body; of a type without entries none is left.
    pub fn start(kind: u32, body: &[u8]) -> Cursor
        ensures { means_cursor result ≡ start (named kind) body.now }
    {
        match kind {
            Record::SNAPSHOT | Record::INDEX => Cursor {
                offset: START,
                left: u32::at(body, COUNT),
            },
            _ => Cursor { offset: 0, left: 0 },
        }
    }

    // The entry at the cursor and the cursor behind it; at 0 left there is none.
    pub fn step(self, kind: u32, body: &[u8]) -> Result<Option<(Entry, Cursor)>, Refusal>
        ensures { means_step result ≡ step (named kind) body.now (means_cursor self) }
    {
        match kind {
            Record::SNAPSHOT => step_in::<OfSnapshot>(body, self),
            Record::INDEX => step_in::<OfIndex>(body, self),
            _ => Ok(None),
        }
    }
}
