// A text by its name, out of the texts of a record or of a group.
ghost use Rattle.std.specs.Prelude.{◌≡◌, take, drop};
ghost use Rattle.layout.specs.Layout.{fields, order, snapshot, security_status, resend, streams, text_in};
ghost use Rattle.show.specs.Named.{meant, text_named, group_text_named};

use layout::width;
use record::Record;

// Where a text stands among those of an order, a trade or a common part; of a security status; of a resend; of a group.
const SECURITY: usize = width::STREAM;

const SOURCE: usize = SECURITY + width::SECURITY;

const PHASE: usize = SOURCE + width::SOURCE;

const STATUS_SOURCE: usize = width::SECURITY;

const FINANCIAL_STATUS: usize = STATUS_SOURCE + width::SOURCE;

const REJECT_TEXT: usize = width::NEWS_ID;

const GROUP_PHASE: usize = width::STREAM;

// The texts by name.
#[derive(Clone, Copy)]
pub enum Text {
    Stream,
    Security,
    Source,
    Phase,
    FinancialStatus,
    NewsId,
    RejectText,
}

// The n bytes from an offset on, or those that are left. Two of the library's calls, as record has for itself: one of both would be a public call.
pub fn span(s: &[u8], at: usize, n: usize) -> &[u8]
    ensures { result.now ≡ take n (drop at s.now) }
{
    let rest = s.get(at..).unwrap_or(&[]);
    &rest[..n.min(rest.len())]
}

// A function for each list of texts, here and below: each promises the texts of another layout.
// Out of the texts of an order or a trade.
#[tactic(auto, unfolding(layout::specs::Layout::text_in))]
fn order_text(which: Text, texts: &[u8]) -> &[u8]
    ensures { result.now ≡ text_in (meant which) (fields order) texts.now }
{
    match which {
        Text::Stream => span(texts, 0, width::STREAM),
        Text::Security => span(texts, SECURITY, width::SECURITY),
        Text::Source => span(texts, SOURCE, width::SOURCE),
        _ => &[],
    }
}

// Out of the texts of a snapshot, an index or a volume index.
#[tactic(auto, unfolding(layout::specs::Layout::text_in))]
fn common_text(which: Text, texts: &[u8]) -> &[u8]
    ensures { result.now ≡ text_in (meant which) (fields snapshot) texts.now }
{
    match which {
        Text::Stream => span(texts, 0, width::STREAM),
        Text::Security => span(texts, SECURITY, width::SECURITY),
        Text::Source => span(texts, SOURCE, width::SOURCE),
        Text::Phase => span(texts, PHASE, width::PHASE),
        _ => &[],
    }
}

// Out of the texts of a security status.
#[tactic(auto, unfolding(layout::specs::Layout::text_in))]
fn status_text(which: Text, texts: &[u8]) -> &[u8]
    ensures { result.now ≡ text_in (meant which) (fields security_status) texts.now }
{
    match which {
        Text::Security => span(texts, 0, width::SECURITY),
        Text::Source => span(texts, STATUS_SOURCE, width::SOURCE),
        Text::FinancialStatus => span(texts, FINANCIAL_STATUS, width::FINANCIAL_STATUS),
        _ => &[],
    }
}

// Out of the texts of a resend.
#[tactic(auto, unfolding(layout::specs::Layout::text_in))]
fn resend_text(which: Text, texts: &[u8]) -> &[u8]
    ensures { result.now ≡ text_in (meant which) (fields resend) texts.now }
{
    match which {
        Text::NewsId => span(texts, 0, width::NEWS_ID),
        Text::RejectText => span(texts, REJECT_TEXT, width::REJECT_TEXT),
        _ => &[],
    }
}

// Out of the texts of a group of a statistics body.
#[tactic(auto, unfolding(layout::specs::Layout::text_in))]
fn stream_text(which: Text, texts: &[u8]) -> &[u8]
    ensures { result.now ≡ text_in (meant which) streams.fields texts.now }
{
    match which {
        Text::Stream => span(texts, 0, width::STREAM),
        Text::Phase => span(texts, GROUP_PHASE, width::PHASE),
        _ => &[],
    }
}

// `text_named` and `group_text_named` are over a type's number, and so are these.
// A text of a record of a type, out of the record's texts; the empty part where the type does not have it.
pub fn text_of(kind: u32, which: Text, texts: &[u8]) -> &[u8]
    ensures { result.now ≡ text_named kind (meant which) texts.now }
{
    match kind {
        Record::RESEND => resend_text(which, texts),
        Record::SECURITY_STATUS => status_text(which, texts),
        Record::SNAPSHOT => common_text(which, texts),
        Record::INDEX => common_text(which, texts),
        Record::VOLUME_INDEX => common_text(which, texts),
        Record::ORDER => order_text(which, texts),
        Record::TRADE => order_text(which, texts),
        _ => &[],
    }
}

// A text of a group of a type, out of the group's texts; the empty part where the group does not have it.
pub fn group_text_of(kind: u32, which: Text, texts: &[u8]) -> &[u8]
    ensures { result.now ≡ group_text_named kind (meant which) texts.now }
{
    match kind {
        Record::STATISTICS => stream_text(which, texts),
        _ => &[],
    }
}
