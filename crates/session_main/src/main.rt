// The session program: records on standard input, their lines on standard output. It owns the sample table and the session, and answers each record
// before it waits for the next one. With --full it also prints the writer and the sequence number of each info, for the comparison with the Rust.
#![tactic(auto)]

ghost use Rattle.std.specs.Prelude.{◌≤◌, ◌≡◌, length};
ghost use Rattle.std.proofs.Math.Option.{Option};
ghost use Rattle.sampleinfo.specs.Samples.{empty_sample};
ghost use Rattle.model.specs.Model.{Model};
ghost use Rattle.session.specs.Stands.{Stands};
ghost use Rattle.session_main.specs.RecordLaws.{Tells, Turned};

use answers::Reply;
use frames::{Stop, Told};
use index::Cache;
use replies::Session;
use sampleinfo::Sample;
use std::env::FillError;
use std::io::{Stderr, Stdin, Stdout};
use std::rt::Env;
use std::{io, str};

// The bytes of the longest record, as two length bytes say it.
const LONGEST: usize = u16::MAX as usize;

// Where lines go, and where what went wrong is told.
#[derive(Clone, Copy)]
struct Streams {
    output: Stdout,
    errors: Stderr,
}

// ---- what a session does not print of an info, for the comparison with the Rust

// The number behind "samples "; 0 where the lines start otherwise.
fn samples_told(lines: &[u8]) -> usize {
    let text = str::from_utf8(lines).unwrap_or("");
    let first = text.lines().next().unwrap_or("");
    let samples = first.strip_prefix("samples ").unwrap_or("");
    samples.parse().unwrap_or(0)
}

fn tell_writer(output: Stdout, writer: [u8; 16]) -> io::Result<()> {
    for byte in writer {
        print!(output; "{byte:02x}")?;
    }
    Ok(())
}

fn tell_info(output: Stdout, writer: [u8; 16], sequence_number: u64) -> io::Result<()> {
    tell_writer(output, writer)?;
    println!(output; " {sequence_number}")
}

// A line for each info: its writer and its sequence number.
fn tell_writers(output: Stdout, infos: &[u64], n: usize) -> io::Result<()> {
    for p in 0..n {
        let info = infos::get_info(infos, p);
        let writer = info.publication_handle;
        tell_info(output, writer, info.sequence_number)?;
    }
    Ok(())
}

// ---- the output

fn tell_more(output: Stdout, full: bool, told: Told, line: &[u8], infos: &[u64]) -> io::Result<()> {
    told.done?;
    if !full {
        return Ok(());
    }
    tell_writers(output, infos, samples_told(line))
}

// "A missing or wrong version byte or a cut-off record prints it and stops."
fn cut_off(streams: Streams) {
    let done = streams.output.write_all(b"refused 1\n");
    frames::checked(&streams.errors, done, b"session_main: write");
}

// No whole piece of the input came: its end, a cut-off piece, or a failed read.
fn over(streams: Streams, why: Stop) {
    match why {
        Stop::Over => {}
        Stop::Cut => cut_off(streams),
        Stop::Failed(why) => {
            frames::checked(&streams.errors, Err(why), b"session_main: read");
        }
    }
}

// ---- a record

// What is lent beside the cache's memory: the length bytes and the bytes of a record, and what answers it.
#[derive(Drop)]
struct Buffers {
    two: [u8; 2],
    rec: [u8; LONGEST],
    pairs: [u64; Reply::PAIRS_SIZE],
    infos: [u64; Reply::INFOS_SIZE],
    line: [u8; Reply::LINES_SIZE],
}

// The lines of a record that was answered.
fn tell_all(streams: Streams, full: bool, n: usize, line: &[u8], infos: &[u64]) -> Told
    ensures { Tells n line.now result }
{
    let told = frames::tell(&streams.output, line, n);
    let size = told.size;
    Told {
        done: tell_more(streams.output, full, told, &line[..size], infos),
        size,
    }
}

fn one_record(
    streams: Streams,
    input: &mut Stdin,
    s: &mut Session,
    t: &mut [Sample],
    lent: &mut Buffers,
    full: bool,
) -> Result<Told, Stop>
    ensures two_len_unchanged { length lent.new.two ≡ length lent.old.two }
    ensures rec_len_unchanged { length lent.new.rec ≡ length lent.old.rec }
    ensures turn { (st : Option Model) → Stands st s.old t.old → Turned st s.old t.old lent.new.two lent.new.rec lent.old.pairs lent.old.infos lent.old.line result s.new t.new lent.new.pairs lent.new.infos lent.new.line }
{
    let n = frames::next_record(input, &mut lent.two, &mut lent.rec)?;
    let rec = &lent.rec[..n];
    let size = session::respond(s, t, rec, &mut lent.pairs, &mut lent.infos, &mut lent.line);
    Ok(tell_all(streams, full, size, &lent.line, &lent.infos))
}

fn empty_record() -> Sample
    ensures { result ≡ empty_sample }
{
    Sample::empty()
}

// ---- the arguments

// Nothing, or --full alone: whether it is given. Other arguments are none of these.
fn arguments<R: Env>(rt: &R) -> Option<bool> {
    let mut word = [0u8; 16];
    match rt.arg(1, &mut word) {
        Err(FillError::NotPresent) => Some(false),
        Ok(n) if &word[..n] == b"--full".as_slice() && is_missing(rt, 2) => Some(true),
        _ => None,
    }
}

// There is no argument at this place.
fn is_missing<R: Env>(rt: &R, place: usize) -> bool {
    let mut word = [0u8; 16];
    matches!(rt.arg(place, &mut word), Err(FillError::NotPresent))
}

fn usage(streams: Streams) {
    let _ = streams.errors.write_all(b"usage: session_main [--full]\n");
}

// ---- the session

// Whether the session also tells the writers; none where it does not begin, and what keeps it is told.
fn begin<R: Env>(rt: &R, streams: Streams, input: &mut Stdin) -> Option<bool> {
    let Some(full) = arguments(rt) else {
        usage(streams);
        return None;
    };
    let mut one = [0u8; 1];
    match frames::next_version(input, &mut one) {
        Ok(()) => Some(full),
        Err(why) => {
            over(streams, why);
            None
        }
    }
}

// A record that did not come or lines that could not be written end it, and 2^64 - 1 records do, so that it is proved to end.
fn main(rt: HostRuntime) {
    let streams = Streams {
        output: rt.stdout(),
        errors: rt.stderr(),
    };
    let mut input = rt.stdin();
    let Some(full) = begin(&rt, streams, &mut input) else {
        return;
    };
    let empty = empty_record();
    let mut t = [empty; Cache::SLOTS];
    let mut lent = Buffers {
        two: [0; 2],
        rec: [0; LONGEST],
        pairs: [0; Reply::PAIRS_SIZE],
        infos: [0; Reply::INFOS_SIZE],
        line: [0; Reply::LINES_SIZE],
    };
    let mut s = session::start();
    'records: for _ in 0..u64::MAX {
        match one_record(streams, &mut input, &mut s, &mut t, &mut lent, full) {
            Ok(told) => {
                if !frames::checked(&streams.errors, told.done, b"session_main: write") {
                    return;
                }
            }
            Err(why) => {
                over(streams, why);
                return;
            }
        }
    }
}
