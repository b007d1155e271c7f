// The first run of a channel, and the frame that asks for the numbers of a run.
ghost use Rattle.std.specs.Prelude.{◌≡◌, ◌≤◌, length};
ghost use Rattle.gaps.specs.Limits.{most_number};
ghost use Rattle.record.specs.Paper.{means_record};
ghost use Rattle.record.specs.declared.Record.TheVariants as variant;
ghost use Rattle.seats.specs.Arrays.{held};
ghost use Rattle.tracker.specs.Places.{made};
ghost use Rattle.tracker.specs.FirstRun.{lost, first_run};
ghost use Rattle.tracker.specs.Inside.{lost_of};
ghost use Rattle.tracker.specs.Request.{asked, resend_of, room_for_request, answer_of, output_asked, request, request_leaves, means_requested};

use crate::{RequestRefusal, Tracker};
use gaps::Run;
use record::Resend;
use seats::Fields;

// The resend type that asks by numbers, and the status of a frame that asks: numbers of the wire, as the record has them.
const BY_NUMBERS: u8 = 1;

const NO_STATUS: u8 = 0;

// 10, then 7; or the first run of the channel, where it has one, in a tracker of these fields.
fn first_run(fields: Fields<'_>, channel: u16) -> Result<Option<Run>, RequestRefusal>
    ensures { lost_of result ≡ first_run (made (held fields.entry)) channel }
{
    let Some(at) = fields.seat_of(channel)? else {
        return Err(RequestRefusal::NoSuchChannel);
    };
    if fields.counts[at] == 0 {
        return Ok(None);
    }
    let b = at * Run::LIMIT;
    Ok(Some(Run {
        first: fields.first[b],
        last: fields.last[b],
    }))
}

// Writes the frame that asks for the first run of a channel, in a tracker of these fields, and tells how many bytes; none where nothing is missing. A refused or empty request leaves every byte as it stood.
pub fn request_in(
    fields: Fields<'_>,
    channel: u16,
    out: &mut [u8],
) -> Result<Option<usize>, RequestRefusal>
    ensures result_value { means_requested result ≡ request (made (held fields.entry)) channel out.old }
    ensures out_after { out.new ≡ request_leaves (made (held fields.entry)) channel out.old }
{
    match first_run(fields, channel)? {
        Some(run) => ask(channel, run, out),
        None => Ok(None),
    }
}

// The numbers of a run that one request asks for.
fn asked(run: Run) -> Run
    requires { run.first ≤ most_number }
    ensures { result ≡ asked run }
{
    if run.last < run.first + Tracker::BATCH {
        return run;
    }
    Run {
        first: run.first,
        last: run.first + Tracker::BATCH - 1,
    }
}

// The numbers of the record that asks for these. Both fit, as it requires, so that `as` loses nothing.
fn resend(channel: u16, run: Run) -> Resend
    requires { (run.first ≤ most_number) × (run.last ≤ most_number) }
    ensures { means_record (variant.Resend result) ≡ resend_of channel run }
{
    Resend {
        resend_type: BY_NUMBERS,
        channel,
        first_number: run.first as i64,
        last_number: run.last as i64,
        status: NO_STATUS,
    }
}

// Writes the frame that asks for the numbers of a run, where the output has room for it.
fn ask(channel: u16, run: Run, out: &mut [u8]) -> Result<Option<usize>, RequestRefusal>
    requires { (run.first ≤ run.last) × (run.last ≤ most_number) }
    ensures result_value { means_requested result ≡ answer_of (room_for_request (length out.old) (lost run)) }
    ensures out_after { out.new ≡ output_asked (room_for_request (length out.old) (lost run)) channel out.old }
{
    let spaces = [b' '; layout::resend::TEXTS_SIZE];
    match writer::write_as(resend(channel, asked(run)), &spaces, b"", out) {
        Ok(n) => Ok(Some(n)),
        Err(_) => Err(RequestRefusal::OutputShort),
    }
}
