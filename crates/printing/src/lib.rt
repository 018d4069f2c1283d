// The lines that the session program prints, laid into a lent buffer of bytes.
#![tactic(auto)]

ghost use Rattle.std.specs.Prelude.{◌≡◌, ◌∷◌, [], ◌++◌, ◌+◌, ◌-◌, ◌≤◌, length, map};
ghost use Rattle.text.specs.Text.{word_text};
ghost use Rattle.model.specs.Model as model;
ghost use Rattle.printing.specs.Printout.{line_of, selected_word, samples_word, or_dash, number_line, pair_line, info_line, printed};
ghost use Rattle.printing.specs.Lines.{number_in, line_room, AddsLine, Adds};

use sampleinfo::{Info, State};
use text::{Page, Word};

const SPACE: u8 = b' ';

const NEWLINE: u8 = b'\n';

// The room that is asked for a line: more than any line has.
pub const LINE_ROOM: usize = 256;

// How many bytes are left on a page from its place on.
fn left(page: &Page) -> usize
    ensures { result ≡ length page.now.bytes.now - page.now.at }
{
    page.bytes.len().saturating_sub(page.at)
}

// A word, and the byte behind it.
#[inline(always)]
fn put_word(page: &mut Page, word: Word, end: u8)
    requires { page.old.at + length (word_text word) + 1 ≤ length page.old.bytes.now }
    ensures { Adds page.old (word_text word.entry ++ end ∷ []) page.new }
{
    page.put(word);
    page.put_bytes(&[end]);
}

// A number, or - where there is none.
fn or_dash(number: Option<u64>) -> Word<'static>
    ensures { word_text result ≡ or_dash (number_in number) }
{
    match number {
        Some(n) => Word::Number(n),
        None => Word::Text(b"-"),
    }
}

// Where a page has room for a line, it goes in; where it has less, nothing is done. So do all the functions below.
fn line(page: &mut Page, words: &[Word])
    requires { length (line_of (map word_text words.now)) ≤ line_room }
    ensures { AddsLine page.old (line_of (map word_text words.now)) page.new }
{
    if left(page) < LINE_ROOM {
        return;
    }
    let Some((last, front)) = words.split_last() else {
        return put_word(page, Word::Text(b""), NEWLINE);
    };
    for word in front {
        put_word(page, *word, SPACE);
    }
    put_word(page, *last, NEWLINE)
}

pub fn ok_line(page: &mut Page)
    ensures { AddsLine page.old (printed model.ok) page.new }
{
    line(page, &[Word::Text(b"ok")])
}

pub fn refused_line(page: &mut Page, n: u64)
    ensures { AddsLine page.old (printed (model.refused n)) page.new }
{
    line(page, &[Word::Text(b"refused"), Word::Number(n)])
}

// By name, and not by a word that callers spell: one function of the word would ask them for its bytes and their length.

// The first line of a selection: how many pair lines follow.
pub fn selected_line(page: &mut Page, n: u64)
    ensures { AddsLine page.old (number_line selected_word n) page.new }
{
    line(page, &[Word::Text(b"selected"), Word::Number(n)])
}

// The first line of infos: how many info lines follow.
pub fn samples_line(page: &mut Page, n: u64)
    ensures { AddsLine page.old (number_line samples_word n) page.new }
{
    line(page, &[Word::Text(b"samples"), Word::Number(n)])
}

// What an add answers.
pub fn key_line(page: &mut Page, key: u64, slot: u64, evicted: Option<u64>)
    ensures { AddsLine page.old (printed (model.added key slot (number_in evicted))) page.new }
{
    let words = [
        Word::Text(b"key"),
        Word::Number(key),
        Word::Text(b"slot"),
        Word::Number(slot),
        Word::Text(b"evicted"),
        or_dash(evicted),
    ];
    line(page, &words)
}

pub fn next_line(page: &mut Page, key: Option<u64>)
    ensures { AddsLine page.old (printed (model.next (number_in key))) page.new }
{
    line(page, &[Word::Text(b"next"), or_dash(key)])
}

// A pair of a selection.
pub fn pair_line(page: &mut Page, key: u64, instance: u64)
    ensures { AddsLine page.old (pair_line (record { key = key; name = instance })) page.new }
{
    line(page, &[Word::Number(key), Word::Number(instance)])
}

pub fn info_line(page: &mut Page, info: Info)
    ensures { AddsLine page.old (info_line info) page.new }
{
    let counts = info.generation_counts;
    let words = [
        Word::Number(u64::from(info.body.handle())),
        Word::Number(u64::from(info.body.kind())),
        Word::Number(u64::from(info.sample_state.bit())),
        Word::Number(u64::from(info.view_state.bit())),
        Word::Number(u64::from(info.instance_state.bit())),
        Word::Number(u64::from(counts.disposed_generation_count)),
        Word::Number(u64::from(counts.no_writers_generation_count)),
        Word::Number(info.sample_rank),
        Word::Signed(info.generation_rank),
        Word::Signed(info.absolute_generation_rank),
    ];
    line(page, &words)
}
