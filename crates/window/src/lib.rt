// What the programs share: a window that slides over their input, lines that are written together, and how a failure is told.
#![tactic(auto)]

ghost use Rattle.std.specs.Prelude.{◌≡◌, ◌+◌, ◌++◌, ◌<◌, ◌≤◌, max, length, take, drop, IfOk, OnOk, OnErr};
ghost use Rattle.std.specs.Io.{StartsWith};
ghost use Rattle.std.specs.Io.KnownBytes.{Appends, Consumes, IsAtEnd, Keeps};
ghost use Rattle.window.specs.Window.{slid, moved, still_held, written, Fits, LeftOf};

mod listing;

pub use listing::Listing;
use std::fmt::InlineText;
use std::io::{Read, Write};
use std::{fmt, io};

// In `fill`, `slide` and `flush` the bytes and how many they are stand apart: docs/PROMISES.md promises these calls so.
// Reads once behind the bytes that are held, which stay; answers how many are held then, no more where the input ends.
pub fn fill<R: Read>(input: &mut R, window: &mut [u8], held: usize) -> io::Result<usize>
    ensures count { IfOk result (λ n. (held ≤ n) × (n ≤ max held (length window.old))) }
    ensures stay { take held window.new ≡ take held window.old }
    ensures read { IfOk result (λ n. Consumes (R.remaining input.old) (R.remaining input.new) (drop held (take n window.new))) }
    ensures end { IfOk result (λ n. n ≡ held → held < length window.old → IsAtEnd (R.remaining input.new)) }
    ensures failed { OnErr result (Keeps (R.remaining input.old) (R.remaining input.new)) }
{
    if window.len() < held {
        return Ok(held);
    }
    let got = input.read(&mut window[held..])?;
    Ok(held + got)
}

// Moves the bytes from an offset up to another to the front, and answers how many they are; nothing where there are no such bytes.
pub fn slide(window: &mut [u8], from: usize, to: usize) -> usize
    ensures { (window.new ≡ slid window.old from to) × (result ≡ moved window.old from to) }
{
    if window.len() < to || to < from {
        return 0;
    }
    window.copy_within(from..to, 0);
    to - from
}

// Writes the bytes that are gathered where fewer than `room` are free behind them, and answers how many are still held. Where the
// write fails, some may be written.
pub fn flush<W: Write>(
    output: &mut W,
    out: &[u8],
    gathered: usize,
    room: usize,
) -> io::Result<usize>
    ensures held { IfOk result (λ n. n ≡ still_held out.now gathered room) }
    ensures wrote { OnOk result (Appends (W.contents output.old) (W.contents output.new) (written out.now gathered room)) }
    ensures failed { OnErr result (still_held out.now gathered room ≡ 0) }
{
    if out.len() < gathered {
        return Ok(0);
    }
    if out.len() - gathered < room {
        output.write_all(&out[0..gathered])?;
        return Ok(0);
    }
    Ok(gathered)
}

// Bytes that are gathered and written together: where they go, the room for them, and how many they are. An array: no heap.
#[derive(Drop)]
pub struct Gathered<W, const N: usize> {
    pub output: W,
    pub out: [u8; N],
    pub held: usize,
}

impl<W: Write + Drop, const N: usize> Gathered<W, N> {
    pub fn new(output: W) -> Self
        ensures { (result.output ≡ output) × (result.held ≡ 0) }
    {
        Gathered {
            output,
            out: [0; N],
            held: 0,
        }
    }

    // Writes them where fewer than `room` bytes are free behind them, as the function `flush`.
    pub fn flush(&mut self, room: usize) -> io::Result<()>
        ensures held { OnOk result (self.new.held ≡ still_held self.old.out self.old.held room) }
        ensures wrote { OnOk result (Appends (W.contents self.old.output) (W.contents self.new.output) (written self.old.out self.old.held room)) }
        ensures failed { OnErr result (still_held self.old.out self.old.held room ≡ 0) }
        ensures out { self.new.out ≡ self.old.out }
    {
        self.held = flush(&mut self.output, &self.out, self.held, room)?;
        Ok(())
    }

    // Writes all of them.
    pub fn flush_all(&mut self) -> io::Result<()>
        ensures none { OnOk result (self.new.held ≡ 0) }
        ensures wrote { self.old.held ≤ N → OnOk result (Appends (W.contents self.old.output) (W.contents self.new.output) (take self.old.held self.old.out)) }
    {
        self.flush(N + 1)
    }
}

// Text is gathered where there is room for it, and is left out where there is none.
impl<W: Write + Drop, const N: usize> fmt::Write for Gathered<W, N> {
    ghost write_str_gives = { λ s bs t. (s.held + length bs ≤ N → (t.held ≡ s.held + length bs) × (take t.held t.out ≡ take s.held s.out ++ bs)) × (N < s.held + length bs → (t.held ≡ s.held) × (t.out ≡ s.out)) };

    fn write_str(&mut self, s: &str) -> fmt::Result {
        if N < self.held || N - self.held < s.len() {
            return Ok(());
        }
        let held = self.held;
        let end = held + s.len();
        let out = &mut self.out[..];
        out[held..end].copy_from_slice(s.as_bytes());
        self.held = end;
        Ok(())
    }
}

// What a step did with the bytes at the window's front: it took so many, it waits for more, or it takes none any more.
#[derive(Clone, Copy, Debug, PartialEq, Eq)]
pub enum Step {
    Took(usize),
    Waits,
    Ends,
}

// What a program does with its input.
pub trait Program {
    // A step over the bytes at the window's front. It takes some of them, and no more than there are.
    fn step(&mut self, bytes: &[u8]) -> io::Result<Step>
        ensures { IfOk result (λ s. Fits s bytes.now) };

    // What it writes behind the last step, over the bytes that are left.
    fn end(&mut self, left: &[u8]) -> io::Result<()>;

    // Writes what it has gathered.
    fn flush(&mut self) -> io::Result<()>;
}

// What failed: a read, or a write.
#[derive(Debug, Drop)]
pub enum Failure {
    Input(io::Error),
    Output(io::Error),
}

impl Failure {
    // Tells it on standard error, behind the program's name, and why in the system's words. Where it can't be told, nothing is.
    pub fn tell(self, rt: &impl Eprint, program: &str) {
        let (what, why) = match self {
            Failure::Input(why) => ("input", why),
            Failure::Output(why) => ("output", why),
        };
        let text = InlineText::<128>::of(why);
        let words = system_words(text.as_str());
        let _ = eprintln!(rt; "{program}: standard {what}: {words}");
    }
}

// The steps over some bytes, while they take some: how many bytes they took, and whether they take none any more. Each end has both.
fn steps<P: Program>(program: &mut P, bytes: &[u8]) -> io::Result<(usize, bool)>
    ensures { IfOk result (λ p. p.0 ≤ length bytes.now) }
{
    let mut from: usize = 0;
    // No iterator over steps: a step says how many bytes it took.
    while from < bytes.len() {
        match program.step(&bytes[from..])? {
            Step::Took(n) => from += n,
            Step::Waits => return Ok((from, false)),
            Step::Ends => return Ok((from, true)),
        }
    }
    Ok((from, false))
}

// A program's steps over an input, up to its end, to where none takes anything any more, or to a read or a write that fails.
// Answers how many bytes are left, which stand at the window's front. The turns are more than any input takes.
pub fn each<R: Read, P: Program>(
    input: &mut R,
    window: &mut [u8],
    program: &mut P,
) -> Result<usize, Failure>
    ensures { IfOk result (λ n. LeftOf (R.remaining input.old) (R.remaining input.new) n window.new) }
{
    let mut held: usize = 0;
    for _ in 0..u64::MAX {
        let filled = fill(input, window, held).map_err(Failure::Input)?;
        let (from, ends) = steps(program, &window[..filled]).map_err(Failure::Output)?;
        let left = slide(window, from, filled);
        if ends || filled == held {
            return Ok(left);
        }
        held = left;
    }
    Ok(held)
}

// Runs a program of a name. A read or a write that fails is told; behind a read that fails, what is gathered is written, and no
// end. What is told no promise can say.
pub fn run<R: Read, P: Program>(
    rt: &impl Eprint,
    name: &str,
    input: &mut R,
    window: &mut [u8],
    program: &mut P,
) {
    let written = match each(input, window, program) {
        Ok(n) => program.end(&window[..n]),
        Err(Failure::Output(why)) => Err(why),
        Err(why) => {
            why.tell(rt, name);
            program.flush()
        }
    };
    if let Err(why) = written {
        Failure::Output(why).tell(rt, name);
    }
}

// An error's text up to the system's number, which std puts behind the words; all of it where there is none.
fn system_words(text: &str) -> &str
    ensures { StartsWith text.now result.now }
{
    match text.split_once(" (os error ") {
        Some((words, _)) => words,
        None => text,
    }
}
