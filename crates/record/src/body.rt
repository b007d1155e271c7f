// What the ten listed types have in common: a layout, a struct of its numbers, and how a body is judged and read.
ghost use Rattle.std.specs.Prelude.{◌≡◌, ℕ, length};
ghost use Rattle.layout.specs.Layout.{Message, type_number, fields, ranges, size, texts};
ghost use Rattle.layout.specs.Group.{judge_body};
ghost use Rattle.layout.specs.Paper as layout_paper;
ghost use Rattle.record.specs.Asked.{filled};
ghost use Rattle.record.specs.Paper.{counted, means_counted, means_reading, means_record};
ghost use Rattle.record.specs.Record.{numbers_as, had, read_as, groups_as};
ghost use Rattle.record.specs.declared.Record.{Record};

use crate::texts::{Texts, no_texts};
use crate::{Reading, Record};
use layout::{Groups, Refusal, also, width};
use wire::Number;

// A listed type, by the struct of its numbers.
pub trait Listed: Copy {
    ghost layout: { Message };

    // The record that holds its numbers.
    ghost variant: { Self → Record };

    // The type's number, and the bytes of its fields.
    ghost KIND: { ℕ };

    const KIND: u32;

    ghost SIZE: { ℕ };

    const SIZE: usize;

    // The groups or entries behind its fields.
    fn groups() -> Option<Groups>
        ensures { means_counted result ≡ counted layout };

    // Whether its fields are in range. Bytes that are not there count as none.
    fn in_range(body: &[u8]) -> bool
        ensures { result ≡ ranges (fields layout) body.now 0 };

    // The numbers of its fields. Bytes that are not there count as none.
    fn fields(body: &[u8]) -> Self
        ensures { means_record (variant result) ≡ numbers_as layout body.now };

    // The texts of its fields. Bytes that are not there count as none.
    fn gathered(body: &[u8]) -> Texts
        ensures { (result.bytes ≡ filled (texts (fields layout) body.now 0)) × (result.length ≡ length (texts (fields layout) body.now 0)) };

    fn as_record(self) -> Record
        ensures { result ≡ variant self };

    // 4 where the body lacks bytes, else 5 where a field is out of range.
    final fn judge(body: &[u8]) -> Result<(), Refusal>
        ensures { layout_paper.means_verdict result ≡ judge_body layout body.now }
    {
        if body.len() < Self::SIZE {
            return Err(Refusal::NotItsLayout);
        }
        let behind = match Self::groups() {
            Some(g) => layout::judge(
                g,
                body,
                Self::SIZE,
                u32::at(body, Self::SIZE - width::COUNT),
            ),
            None => Ok(()),
        };
        also(behind, Self::in_range(body))
    }

    // The numbers that some bytes have; all 0 where they lack some of its fields.
    final fn numbers(body: &[u8]) -> Self
        ensures { means_record (variant result) ≡ numbers_as layout (had layout body.now) }
    {
        if body.len() < Self::SIZE {
            return Self::fields(&body[0..0]);
        }
        Self::fields(body)
    }

    // The texts that some bytes have; none where they lack some of its fields.
    final fn texts(body: &[u8]) -> Texts
        ensures { (result.bytes ≡ filled (texts (fields layout) (had layout body.now) 0)) × (result.length ≡ length (texts (fields layout) (had layout body.now) 0)) }
    {
        if body.len() < Self::SIZE {
            return no_texts();
        }
        Self::gathered(body)
    }

    // The record of a body, with its texts; or refusal 4 or 5.
    final fn read(body: &[u8]) -> Result<Reading, Refusal>
        ensures { means_reading result ≡ read_as layout body.now }
    {
        Self::judge(body)?;
        Ok(Reading {
            record: Self::numbers(body).as_record(),
            texts: Self::texts(body),
        })
    }

    // The groups or entries of a body as a part of it, without the tail; the empty part where there are none, or the body is refused.
    final fn behind(body: &[u8]) -> &[u8]
        ensures { result.now ≡ groups_as layout body.now }
    {
        match Self::judge(body) {
            Ok(()) => match Self::groups() {
                Some(g) => {
                    let count = u32::at(body, Self::SIZE - width::COUNT);
                    let end = layout::offset_from(g, body, Self::SIZE, count);
                    &body[Self::SIZE..end]
                }
                None => &body[0..0],
            },
            Err(_) => &body[0..0],
        }
    }

    ghost kind_is: { type_number layout ≡ KIND };

    ghost size_is: { size (fields layout) ≡ SIZE };
}
