// datasample_cache.rs, make_sample_info: the info of a sample, with the ranks of its place; and infos as words of the lent result buffer.
#![tactic(auto)]

ghost use Rattle.std.specs.Prelude.{◌≡◌, ◌%◌, take, drop};
ghost use Rattle.sampleinfo.specs.Counts.{total};
ghost use Rattle.model.specs.Views.{view_of, rank_from};
ghost use Rattle.infos.specs.Infos.{ranks_from, info_from};
ghost use Rattle.infos.specs.Words.{body_of_words, state_words, rank_words, info_words, bytes_of, counts_in, places_in, laid, put_info, info_in, no_info, get_info};

use sampleinfo::{
    Body, Info, InstanceMetaData, InstanceState, NotAliveGenerationCounts, Ranks, Sample,
    SampleState, State, ViewState,
};

// How far the total of the counts lies below the latest total: below 0 where it is the greater.
fn rank(latest: NotAliveGenerationCounts, counts: NotAliveGenerationCounts) -> i64
    ensures { result ≡ rank_from (total latest) (total counts) }
{
    (latest.total() as i64) - (counts.total() as i64)
}

fn view_state(imd: InstanceMetaData, counts: NotAliveGenerationCounts) -> ViewState
    ensures { result ≡ view_of imd.last_generation_accessed (total counts) }
{
    if imd.last_generation_accessed < counts.accessed() {
        ViewState::New
    } else {
        ViewState::NotNew
    }
}

// What the ranks of a list are counted from, in edition 1.
#[derive(Clone, Copy)]
pub struct Ranking {
    // the counts of the latest-keyed live sample of the cache
    pub mrs_generations: NotAliveGenerationCounts,
    // the counts of the instance of the list's last pair
    pub mrsic_generations: NotAliveGenerationCounts,
}

impl Ranking {
    // The ranks of a place of the list, by how many places follow it and by the counts of its sample.
    pub fn of_place(self, follow: u64, counts: NotAliveGenerationCounts) -> Ranks
        ensures { result ≡ ranks_from self follow counts }
    {
        Ranks {
            sample_rank: follow,
            generation_rank: rank(self.mrsic_generations, counts),
            absolute_generation_rank: rank(self.mrs_generations, counts),
        }
    }
}

// The info of a sample, from its instance's record and the ranks of its place.
#[tactic(auto, using(crate::specs::InfoLaws::made))]
pub fn make_sample_info(s: Sample, imd: InstanceMetaData, ranks: Ranks) -> Info
    ensures { result ≡ info_from s imd ranks }
{
    // a variable: the borrow checker covers no array that goes straight from a field into a literal
    let writer = s.writer_guid;
    Info {
        body: s.body,
        sample_state: s.sample_state(),
        view_state: view_state(imd, s.generation_counts),
        instance_state: imd.instance_state,
        generation_counts: s.generation_counts,
        sample_rank: ranks.sample_rank,
        generation_rank: ranks.generation_rank,
        absolute_generation_rank: ranks.absolute_generation_rank,
        publication_handle: writer,
        sequence_number: s.sequence_number,
    }
}

// ---- infos as words

// Where each part of an info stands among its words.
#[derive(Clone, Copy)]
pub struct InfoWords {}

impl InfoWords {
    pub const WORDS: usize = 27;

    pub const HANDLE: usize = 0;

    pub const KIND: usize = 1;

    pub const SAMPLE_STATE: usize = 2;

    pub const VIEW_STATE: usize = 3;

    pub const INSTANCE_STATE: usize = 4;

    pub const DISPOSED_GENERATION_COUNT: usize = 5;

    pub const NO_WRITERS_GENERATION_COUNT: usize = 6;

    pub const SAMPLE_RANK: usize = 7;

    pub const GENERATION_RANK: usize = 8;

    pub const ABSOLUTE_GENERATION_RANK: usize = 9;

    pub const SEQUENCE_NUMBER: usize = 10;
    // the writer, a word for each of its bytes
    pub const PUBLICATION_HANDLE: usize = 11;

    pub const BYTES: usize = 16;
}

// A kind that is not 2 stands for a value.
fn body_of(kind: u64, handle: u32) -> Body
    ensures { result ≡ body_of_words kind handle }
{
    match kind {
        2 => Body::Dispose(handle),
        _ => Body::Value(handle),
    }
}

// How many infos the buffer has room for.
pub fn places(out: &[u64]) -> usize
    ensures { result ≡ places_in out.now }
{
    out.len() / InfoWords::WORDS
}

// ---- an info put

// The handle, the kind and the three states.
#[tactic(auto, unfolding(crate::specs::Words::laid))]
fn put_states(words: &mut [u64; InfoWords::WORDS], x: Info)
    ensures { words.new ≡ laid words.old 0 (state_words x) }
{
    words[InfoWords::HANDLE] = u64::from(x.body.handle());
    words[InfoWords::KIND] = u64::from(x.body.kind());
    words[InfoWords::SAMPLE_STATE] = u64::from(x.sample_state.bit());
    words[InfoWords::VIEW_STATE] = u64::from(x.view_state.bit());
    words[InfoWords::INSTANCE_STATE] = u64::from(x.instance_state.bit());
}

// The counts, the ranks, in two's complement, and the sequence number.
#[tactic(auto, unfolding(crate::specs::Words::laid))]
fn put_ranks(words: &mut [u64; InfoWords::WORDS], x: Info)
    ensures { words.new ≡ laid words.old 5 (rank_words x) }
{
    let counts = x.generation_counts;
    words[InfoWords::DISPOSED_GENERATION_COUNT] = u64::from(counts.disposed_generation_count);
    words[InfoWords::NO_WRITERS_GENERATION_COUNT] = u64::from(counts.no_writers_generation_count);
    words[InfoWords::SAMPLE_RANK] = x.sample_rank;
    words[InfoWords::GENERATION_RANK] = x.generation_rank.cast_unsigned();
    words[InfoWords::ABSOLUTE_GENERATION_RANK] = x.absolute_generation_rank.cast_unsigned();
    words[InfoWords::SEQUENCE_NUMBER] = x.sequence_number;
}

fn put_writer(words: &mut [u64; InfoWords::WORDS], writer: [u8; InfoWords::BYTES])
    ensures { words.new ≡ laid words.old 11 writer }
{
    for (j, byte) in writer.iter().enumerate() {
        words[InfoWords::PUBLICATION_HANDLE + j] = u64::from(*byte);
    }
}

// The words that stand for an info.
fn words_of(x: Info) -> [u64; InfoWords::WORDS]
    ensures { result ≡ info_words x }
{
    let mut words = [0; InfoWords::WORDS];
    put_states(&mut words, x);
    put_ranks(&mut words, x);
    put_writer(&mut words, x.publication_handle);
    words
}

// The info goes in at place p, where the buffer has room for the whole of it; else nothing changes.
pub fn put_info(out: &mut [u64], p: usize, x: Info)
    ensures { out.new ≡ put_info out.old p x }
{
    if p < places(out) {
        let at = InfoWords::WORDS * p;
        out[at..at + InfoWords::WORDS].copy_from_slice(&words_of(x));
    }
}

// ---- an info got back

fn low_half(word: u64) -> u32
    ensures { result ≡ word % 4294967296 }
{
    (word & 0xFFFF_FFFF) as u32
}

fn writer_of(words: &[u64; InfoWords::WORDS]) -> [u8; InfoWords::BYTES]
    ensures { result ≡ bytes_of (take 16 (drop 11 words.now)) }
{
    let mut writer = [0; InfoWords::BYTES];
    for (j, byte) in writer.iter_mut().enumerate() {
        *byte = (words[InfoWords::PUBLICATION_HANDLE + j] % 256) as u8;
    }
    writer
}

fn counts_of(words: &[u64; InfoWords::WORDS]) -> NotAliveGenerationCounts
    ensures { result ≡ counts_in words.now 0 }
{
    NotAliveGenerationCounts {
        disposed_generation_count: low_half(words[InfoWords::DISPOSED_GENERATION_COUNT]),
        no_writers_generation_count: low_half(words[InfoWords::NO_WRITERS_GENERATION_COUNT]),
    }
}

// The info that 27 words stand for, whatever they hold.
#[tactic(auto, unfolding(crate::specs::Words::info_in))]
fn info_of(words: &[u64; InfoWords::WORDS]) -> Info
    ensures { result ≡ info_in words.now 0 }
{
    let handle = low_half(words[InfoWords::HANDLE]);
    Info {
        body: body_of(words[InfoWords::KIND], handle),
        sample_state: SampleState::from(words[InfoWords::SAMPLE_STATE]),
        view_state: ViewState::from(words[InfoWords::VIEW_STATE]),
        instance_state: InstanceState::from(words[InfoWords::INSTANCE_STATE]),
        generation_counts: counts_of(words),
        sample_rank: words[InfoWords::SAMPLE_RANK],
        generation_rank: words[InfoWords::GENERATION_RANK].cast_signed(),
        absolute_generation_rank: words[InfoWords::ABSOLUTE_GENERATION_RANK].cast_signed(),
        publication_handle: writer_of(words),
        sequence_number: words[InfoWords::SEQUENCE_NUMBER],
    }
}

// What is answered past the end: all numbers 0, a value's body. No derived default: these states are not zeros.
fn no_info() -> Info
    ensures { result ≡ no_info }
{
    Info {
        body: Body::Value(0),
        sample_state: SampleState::NotRead,
        view_state: ViewState::NotNew,
        instance_state: InstanceState::Alive,
        generation_counts: NotAliveGenerationCounts::zero(),
        sample_rank: 0,
        generation_rank: 0,
        absolute_generation_rank: 0,
        publication_handle: [0; 16],
        sequence_number: 0,
    }
}

// The info at place p, by value.
pub fn get_info(out: &[u64], p: usize) -> Info
    ensures { result ≡ get_info out.now p }
{
    let (infos, _) = out.as_chunks::<{ InfoWords::WORDS }>();
    match infos.get(p) {
        Some(words) => info_of(words),
        None => no_info(),
    }
}
