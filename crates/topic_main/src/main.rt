// A program over the topic cache, for the comparison with the Rust (oracle/src/topic/format.rs): records on standard input, lines on standard
// output. It owns the words of the cache, and answers each record before it waits for the next.
#![tactic(auto)]

use changes::{CacheChange, Kept};
use dds_cache::{Added, TopicCache};
use frames::Stop;
use records::Request;
use refusals::Refusal;
use std::io::{Stderr, Stdin, Stdout};
use text::{Page, Word};
use topic_records::Op;

const SPACE: u8 = b' ';

const NEWLINE: u8 = b'\n';

// Where lines go, and where what went wrong is told.
#[derive(Clone, Copy)]
struct Streams {
    output: Stdout,
    errors: Stderr,
}

// ---- printing

fn print(streams: Streams, text: &[u8]) {
    let done = streams.output.write_all(text);
    frames::checked(&streams.errors, done, b"topic_main: write");
}

// The lines of a page, in one write.
fn print_page(streams: Streams, page: &Page) {
    let size = page.at.min(page.bytes.len());
    print(streams, &page.bytes[..size]);
}

// A word, and the byte behind it. Inline, so that each call knows its kind of word: a list of words, put by one loop, cost half as much again.
#[inline(always)]
fn put_word(page: &mut Page, word: Word, end: u8) {
    page.put(word);
    page.put_bytes(&[end]);
}

// A line of a word and a number.
fn put_named(page: &mut Page, text: &[u8], n: u64) {
    put_word(page, Word::Text(text), SPACE);
    put_word(page, Word::Number(n), NEWLINE);
}

fn print_named(streams: Streams, text: &[u8], n: u64) {
    let mut line = [0; 32];
    let mut page = Page::new(&mut line);
    put_named(&mut page, text, n);
    print_page(streams, &page);
}

fn ok(streams: Streams) {
    print(streams, b"ok\n");
}

fn refused(streams: Streams, why: Refusal) {
    print_named(streams, b"refused", why.number());
}

// Key, writer, sequence number, handle, length: an entry's line.
fn put_entry(page: &mut Page, kept: Kept) {
    let change = kept.change;
    let writer = topic_records::writer_text(change.writer_guid);
    put_word(page, Word::Number(kept.key), SPACE);
    put_word(page, Word::Text(&writer), SPACE);
    put_word(page, Word::Number(change.sequence_number), SPACE);
    put_word(page, Word::Number(u64::from(change.handle)), SPACE);
    put_word(page, Word::Number(u64::from(change.payload_size)), NEWLINE);
}

// How many entries there are, and a line for each.
fn put_entries(page: &mut Page, res: &[u64], n: usize) {
    put_named(page, b"entries", n as u64);
    for p in 0..n {
        put_entry(page, changes::kept_at(res, p));
    }
}

fn print_added(streams: Streams, answer: Added) {
    match answer {
        Added::Key(key) => print_named(streams, b"key", key),
        Added::HeldAlready => print(streams, b"held already\n"),
    }
}

// The page holds the longest answer: 384 entries of at most 97 bytes.
fn print_entries(streams: Streams, res: &[u64], n: usize) {
    let mut lines = [0; 40960];
    let mut page = Page::new(&mut lines);
    put_entries(&mut page, res, n);
    print_page(streams, &page);
}

// ---- a session: its cache, once a new was accepted, and the lent words it stands in

#[derive(Drop)]
struct Session {
    streams: Streams,
    cache: Option<TopicCache>,
    words: [u64; CacheChange::TABLE],
}

impl Session {
    // ---- calls: each prints its answer and gives the cache that stands; what is refused prints nothing here

    fn do_new(&mut self, rec: &[u8]) -> Result<TopicCache, Refusal> {
        let history = topic_records::history_in(rec);
        let cache = TopicCache::new(history, topic_records::most_in(rec), &mut self.words)?;
        ok(self.streams);
        Ok(cache)
    }

    fn do_update(&self, cache: TopicCache, rec: &[u8]) -> Result<TopicCache, Refusal> {
        let history = topic_records::history_in(rec);
        let updated = cache.update_keep_limits(history, topic_records::most_in(rec))?;
        ok(self.streams);
        Ok(updated)
    }

    fn do_add(&mut self, cache: TopicCache, rec: &[u8]) -> Result<TopicCache, Refusal> {
        let time = records::u64_at(rec, 33);
        let outcome = cache.add_change(&mut self.words, time, topic_records::change_of(rec))?;
        print_added(self.streams, outcome.answer);
        Ok(outcome.cache)
    }

    fn do_remove(&mut self, cache: TopicCache, rec: &[u8]) -> TopicCache {
        let then = cache.remove_changes_before(&mut self.words, records::u64_at(rec, 1));
        ok(self.streams);
        then
    }

    // The results have room for every place, so refusal 9 does not come.
    fn do_range(&self, cache: TopicCache, rec: &[u8]) -> Result<TopicCache, Refusal> {
        let mut res = [0; CacheChange::TABLE];
        let start = records::u64_at(rec, 1);
        let end = records::u64_at(rec, 9);
        let n = cache.get_changes_in_range_best_effort(&self.words, start, end, &mut res)?;
        print_entries(self.streams, &res, n);
        Ok(cache)
    }

    // The cache that a record leaves. Only a new comes where there is none.
    fn call(&mut self, rec: &[u8]) -> Result<TopicCache, Refusal> {
        let op = topic_records::op_of(rec)?;
        op.refusal(self.cache.is_some())?;
        let Some(cache) = self.cache else {
            return self.do_new(rec);
        };
        match op {
            Op::New => self.do_new(rec),
            Op::Update => self.do_update(cache, rec),
            Op::Add => self.do_add(cache, rec),
            Op::RemoveBefore => Ok(self.do_remove(cache, rec)),
            Op::Range => self.do_range(cache, rec),
        }
    }

    // A refused record leaves the session as it was.
    fn respond(&mut self, rec: &[u8]) {
        match self.call(rec) {
            Ok(cache) => self.cache = Some(cache),
            Err(why) => refused(self.streams, why),
        }
    }
}

// ---- the input

// A twin of session_main's: what a cut prints differs.
// No whole piece of the input came: its end, a wrong version or a record that is cut off, or a failed read.
fn over(streams: Streams, why: Stop) {
    match why {
        Stop::Over => {}
        Stop::Cut => refused(streams, Refusal::Malformed),
        Stop::Failed(why) => {
            frames::checked(&streams.errors, Err(why), b"topic_main: read");
        }
    }
}

// The version byte, and then each record, read whole and answered.
fn all_records(streams: Streams, input: &mut Stdin) -> Result<(), Stop> {
    frames::next_version(input, &mut [0; 1])?;
    let mut session = Session {
        streams,
        cache: None,
        words: [0; CacheChange::TABLE],
    };
    let mut two = [0; 2];
    let mut rec = [0; Request::LONGEST];
    // 2^64 - 1 records end it, so that it is proved to end.
    for _ in 0..u64::MAX {
        let n = frames::next_record(input, &mut two, &mut rec)?;
        session.respond(&rec[..n]);
    }
    Ok(())
}

fn main(rt: HostRuntime) {
    let streams = Streams {
        output: rt.stdout(),
        errors: rt.stderr(),
    };
    let mut input = rt.stdin();
    if let Err(why) = all_records(streams, &mut input) {
        over(streams, why);
    }
}
