// A gate program: standard input, handed to the stream reader in cuts of one size after the other, and listed as `list` does each time.
#![tactic(auto)]

ghost use Rattle.std.specs.Prelude.{◌≤◌, length, IfOk};

use frame::Frame;
use std::io;
use std::io::{Read, Stdout};
use streams::{Says, Stream};
use window::{Failure, Listing};
use wire::{Number, answers};

// The sizes of the cuts.
const SIZES: [usize; 7] = [1, 2, 3, 7, 64, 1460, 65536];

// Standard input is held whole, up to 1 MiB. There is room for a byte more, by which a longer one is noticed.
const HELD: usize = 1048576;

// The end of the cut in which an offset of n bytes lies. Without a size they are one cut.
fn cut_end(at: usize, size: usize, n: usize) -> usize
    requires { at ≤ n }
    ensures { (at ≤ result) × (result ≤ n) }
{
    if size == 0 {
        return n;
    }
    n.min(at.saturating_add(size - at % size))
}

// A frame's line, where some bytes begin with the frame: its type stands first.
fn listed(listing: &mut Listing, bytes: &[u8], f: Frame) -> io::Result<()> {
    if u32::at(bytes, 0) != f.kind {
        return Ok(());
    }
    listing.line(f.kind, f.len, f.total)
}

// What a call found in a cut or in the lent buffer.
fn found(listing: &mut Listing, says: Says, cut: &[u8], buffer: &[u8]) -> io::Result<()> {
    match says {
        Says::InCut(f) => listed(listing, cut, f),
        Says::InBuffer(f) => listed(listing, buffer, f),
        _ => Ok(()),
    }
}

// The stream is told to have ended: the last line, by its answer.
fn finish(listing: &mut Listing, stream: Stream, buffer: &[u8]) -> io::Result<()> {
    match stream.end(buffer).says {
        Says::Refused(why) => listing.last(u32::from(why), why.missing()),
        Says::Malformed => listing.last(answers::MALFORMED, 0),
        _ => listing.last(answers::PLAIN, 0),
    }
}

// The listing in cuts of a size, up to where the stream takes nothing more, as behind a refusal.
fn list_in_cuts(output: Stdout, bytes: &[u8], size: usize, buffer: &mut [u8]) -> io::Result<()> {
    let mut listing = Listing::new(output);
    let mut stream = Stream::new();
    let mut from: usize = 0;
    // No iterator over cuts: a push says how much of its cut it took.
    while from < bytes.len() {
        let to = cut_end(from, size, bytes.len());
        let cut = &bytes[from..to];
        let pushed = stream.push(buffer, cut);
        stream = pushed.next;
        found(&mut listing, pushed.says, cut, buffer)?;
        if pushed.took == 0 {
            break;
        }
        from += pushed.took;
    }
    finish(&mut listing, stream, buffer)
}

// An input, as much of it as there is room for.
fn read_all<R: Read>(input: &mut R, bytes: &mut [u8]) -> io::Result<usize>
    ensures { IfOk result (λ n. n ≤ length bytes.new) }
{
    let mut held: usize = 0;
    // No iterator over reads: a read says how many bytes it gave.
    while held < bytes.len() {
        let filled = window::fill(input, bytes, held)?;
        if filled == held {
            return Ok(held);
        }
        held = filled;
    }
    Ok(held)
}

// The listing of standard input once for each size, up to a failed read or write. An input that is too long is told, and not listed.
fn list_all(rt: HostRuntime, bytes: &mut [u8]) -> Result<(), Failure> {
    let n = read_all(&mut rt.stdin(), bytes).map_err(Failure::Input)?;
    if HELD < n {
        let _ = eprintln!(rt; "cuts: standard input is longer than 1 MiB");
        return Ok(());
    }
    let mut buffer = [0u8; Frame::LIMIT];
    for size in SIZES {
        list_in_cuts(rt.stdout(), &bytes[..n], size, &mut buffer).map_err(Failure::Output)?;
    }
    Ok(())
}

fn main(rt: HostRuntime) {
    let mut bytes = [0u8; HELD + 1];
    if let Err(why) = list_all(rt, &mut bytes) {
        why.tell(&rt, "cuts");
    }
}
