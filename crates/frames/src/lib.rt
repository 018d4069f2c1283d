// The frame of a program's input, a version byte and then records behind two length bytes each, and the way of its output. What standard input gives and
// whether standard output takes it no contract can say; what is made of the bytes that came has one.
#![tactic(auto)]

ghost use Rattle.std.specs.Prelude.{◌≡◌, ◌≤◌, ◌<◌, length, is_ok, IfOk, OnOk};
ghost use Rattle.records.specs.Format.{byte_at, number_at, too_long};
ghost use Rattle.frames.specs.Pieces.{piece_of, version_of};

use std::io::{Cursor, ErrorKind, Print, Read, Write};
use std::{io, str};

// ---- the input

// Why no whole piece of the input came: it ends where it may, it is cut off, or a read failed.
#[derive(Clone, Copy)]
pub enum Stop {
    Over,
    Cut,
    Failed(io::Error),
}

// Reads until the lent bytes are full, the input ends or a read fails. std's read_exact does not tell the last two apart, and reads on where a signal
// interrupts.
fn fill<R: Read>(input: &mut R, buf: &mut [u8]) -> io::Result<usize>
    ensures { IfOk result (λ n. n ≤ length buf.new) }
{
    let mut n = 0;
    // A while: n grows by what came.
    while n < buf.len() {
        match input.read(&mut buf[n..])? {
            0 => break,
            more => n += more,
        }
    }
    Ok(n)
}

// Whether all the bytes came that were asked for.
#[tactic(auto, unfolding(crate::specs::Pieces::piece_of))]
fn came_of(got: io::Result<usize>, wanted: usize, may_end: bool) -> Result<(), Stop>
    ensures { result ≡ piece_of got wanted may_end }
{
    match got {
        Err(why) => Err(Stop::Failed(why)),
        Ok(n) if n == wanted => Ok(()),
        Ok(0) if may_end => Err(Stop::Over),
        Ok(_) => Err(Stop::Cut),
    }
}

// "A missing or wrong version byte" is as a cut-off record.
#[tactic(auto, unfolding(crate::specs::Pieces::version_of))]
fn known(came: Result<(), Stop>, version: u8) -> Result<(), Stop>
    ensures { result ≡ version_of came version }
{
    came?;
    if version != 1 {
        return Err(Stop::Cut);
    }
    Ok(())
}

// The version byte.
pub fn next_version<R: Read>(input: &mut R, one: &mut [u8]) -> Result<(), Stop>
    ensures version { OnOk result (byte_at one.new 0 ≡ 1) }
{
    let got = fill(input, one);
    let came = came_of(got, 1, false);
    known(came, records::byte(one, 0, 0))
}

// The next record goes to the front of the lent bytes, its two length bytes beside it; the answer is how many bytes it has. The input may end before it.
pub fn next_record<R: Read>(input: &mut R, two: &mut [u8], rec: &mut [u8]) -> Result<usize, Stop>
    ensures size_in_bounds { IfOk result (λ size. (size ≤ length rec.new) × (size < too_long)) }
    ensures size_value { IfOk result (λ size. size ≡ number_at 2 two.new 0) }
{
    let head = fill(input, two);
    came_of(head, 2, true)?;
    let size = usize::from(records::u16_at(two, 0));
    let n = size.min(rec.len());
    let body = fill(input, &mut rec[..n]);
    came_of(body, size, false)?;
    Ok(n)
}

// ---- the output

// Whether the lines could be written, and how many bytes were handed over: kept, since that is promised of a failed write too.
#[derive(Clone, Copy)]
pub struct Told {
    pub done: io::Result<()>,
    pub size: usize,
}

// The front of the lent bytes.
pub fn tell<P: Print>(out: &P, line: &[u8], size: usize) -> Told
    ensures within { result.size ≤ length line.now }
    ensures all { size ≤ length line.now → result.size ≡ size }
{
    let n = size.min(line.len());
    Told {
        done: out.write_all(&line[..n]),
        size: n,
    }
}

// ---- what went wrong

// The system's words for what failed: std puts its number behind them.
fn words(text: &[u8]) -> &str {
    let all = str::from_utf8(text).unwrap_or("");
    all.split_once(" (os error ")
        .map_or(all, |(front, _)| front)
}

// What failed, and why, in a line on standard error. Who listens no longer is told nothing.
fn fail<P: Print>(errors: &P, why: io::Error, what: &[u8]) {
    if why.kind() == ErrorKind::BrokenPipe {
        return;
    }
    let mut text = Cursor::new([0u8; 256]);
    let _ = write!(text, "{why}");
    let n = (text.position() as usize).min(256);
    let all = text.into_inner();
    let front = words(&all[..n]);
    let _ = errors.write_all(what);
    let _ = println!(errors; ": {front}");
}

// Where a call failed, that is told. The answer is whether it went well.
pub fn checked<P: Print>(errors: &P, done: io::Result<()>, what: &[u8]) -> bool
    ensures { result ≡ is_ok done }
{
    match done {
        Ok(()) => true,
        Err(why) => {
            fail(errors, why, what);
            false
        }
    }
}
