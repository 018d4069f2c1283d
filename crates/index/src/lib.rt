// The cache on numbers: the header, and the words with a region for each thing that a search asks for.
//
// The 928 words:
//
//     from  words  region
//        0     32  NAMES   the instance keys, in order of arrival; 0 where none is held
//       32    128  METAS   four words an instance: state, disposed count, no-writers count, last accessed
//      160    256  CELLS   the slots of the last d samples of each instance, oldest first, d cells an instance; 256 where there is none
//      416    256  KEYS    the key of the sample in each slot; 0 in a free one
//      672    256  OWNERS  the row of its instance; 0 in a free one
#![tactic(auto)]

ghost use Rattle.std.specs.Prelude.{◌≡◌, ◌+◌, ◌*◌, ◌%◌, ◌<◌, ◌≤◌, ◌⊎◌, MatchOption, min, get_or, take, ◌==◌};
ghost use Rattle.std.specs.List.{position};
ghost use Rattle.store.specs.Store.{Store, place_of};
ghost use Rattle.index.specs.Words.{region, store, names_in, metas_in, cells_in, keys_in, owners_in, put_name, put_cell, put_slot, meta_at, put_meta, put_meta_word};
ghost use Rattle.index.specs.Memory.{Held};

use sampleinfo::{InstanceMetaData, InstanceState, NotAliveGenerationCounts, State};
use slots::Free;

// What a cache holds beside the words.
// Kept: 0 for no keep count and 256 for no slot, as in the definitions that the header is compared with.
#[derive(Clone, Copy)]
pub struct Cache {
    // how many cells each instance has: the keep count, or 0 where there is none
    pub depth: usize,
    // how many instances are allowed, and how many are held
    pub room: usize,
    pub held: usize,
    pub last: Option<u64>,
    // the slot of the last accepted sample while that is live, else 256
    pub newest: usize,
    pub free: Free,
}

impl Cache {
    // How many words are lent.
    pub const WORDS: usize = 928;

    // Where each region of the words begins.
    pub const NAMES: usize = 0;

    pub const METAS: usize = 32;

    pub const CELLS: usize = 160;

    pub const KEYS: usize = 416;

    pub const OWNERS: usize = 672;

    // How many instances and slots there can be.
    pub const ROWS: usize = 32;

    pub const SLOTS: usize = 256;

    // How many words the instance records have.
    const METAS_SIZE: usize = 128;
}

// A cache beside its sample table: the header, and the words with a region for each thing that a search asks for. The host
// owns it and lends it.
#[derive(Clone, Copy)]
pub struct Index {
    pub head: Cache,
    pub words: [u64; Cache::WORDS],
}

// The cells of a row: as many as the keep count, oldest first.
#[derive(Clone, Copy)]
pub struct Window {
    depth: usize,
    row: usize,
    ghost inside: { (depth ≤ 256) × (row < 32) },
}

impl Window {
    // None where no store has one.
    pub fn of(depth: usize, row: usize) -> Option<Window>
        ensures { MatchOption result ((256 < depth) ⊎ (32 ≤ row)) (λ w. (w.depth ≡ depth) × (w.row ≡ row)) }
    {
        if Cache::SLOTS < depth || Cache::ROWS <= row {
            None
        } else {
            Some(Window { depth, row })
        }
    }

    pub fn depth(self) -> usize
        ensures { (result ≡ self.depth) × (result ≤ 256) }
    {
        self.depth
    }

    pub fn row(self) -> usize
        ensures { (result ≡ self.row) × (result < 32) }
    {
        self.row
    }

    // The place of its first cell among all cells.
    pub fn first(self) -> usize
        ensures { (result ≡ self.depth * self.row) × (result ≤ 8192) }
    {
        let Window { depth, row, .. } = self;
        depth * row
    }
}

// ---- words by region; past the region's end there is 0, and a store there changes nothing

// A word of the region of LEN words from FROM on.
fn word_at<const FROM: usize, const LEN: usize>(ws: &[u64; Cache::WORDS], i: usize) -> u64
    requires { FROM + LEN ≤ 928 }
    ensures { result ≡ get_or (region FROM LEN ws.now) i 0 }
{
    if i < LEN { ws[FROM + i] } else { 0 }
}

fn put_word<const FROM: usize, const LEN: usize>(ws: &mut [u64; Cache::WORDS], i: usize, word: u64)
    requires { FROM + LEN ≤ 928 }
    ensures { ws.new ≡ store FROM LEN ws.old i word }
{
    if i < LEN {
        ws[FROM + i] = word;
    }
}

pub fn name_at(ws: &[u64; Cache::WORDS], row: usize) -> u64
    ensures { result ≡ get_or (names_in ws.now) row 0 }
{
    word_at::<{ Cache::NAMES }, { Cache::ROWS }>(ws, row)
}

pub fn put_name(ws: &mut [u64; Cache::WORDS], row: usize, name: u64)
    ensures { ws.new ≡ put_name ws.old row name }
{
    put_word::<{ Cache::NAMES }, { Cache::ROWS }>(ws, row, name);
}

fn put_meta_word(ws: &mut [u64; Cache::WORDS], i: usize, word: u64)
    ensures { ws.new ≡ put_meta_word ws.old i word }
{
    put_word::<{ Cache::METAS }, { Cache::METAS_SIZE }>(ws, i, word);
}

pub fn cell_at(ws: &[u64; Cache::WORDS], i: usize) -> u64
    ensures { result ≡ get_or (cells_in ws.now) i 0 }
{
    word_at::<{ Cache::CELLS }, { Cache::SLOTS }>(ws, i)
}

pub fn put_cell(ws: &mut [u64; Cache::WORDS], i: usize, cell: u64)
    ensures { ws.new ≡ put_cell ws.old i cell }
{
    put_word::<{ Cache::CELLS }, { Cache::SLOTS }>(ws, i, cell);
}

pub fn key_at(ws: &[u64; Cache::WORDS], slot: usize) -> u64
    ensures { result ≡ get_or (keys_in ws.now) slot 0 }
{
    word_at::<{ Cache::KEYS }, { Cache::SLOTS }>(ws, slot)
}

pub fn owner_at(ws: &[u64; Cache::WORDS], slot: usize) -> u64
    ensures { result ≡ get_or (owners_in ws.now) slot 0 }
{
    word_at::<{ Cache::OWNERS }, { Cache::SLOTS }>(ws, slot)
}

// The slot's key and the row of its instance.
pub fn put_slot(ws: &mut [u64; Cache::WORDS], slot: usize, key: u64, row: usize)
    ensures { ws.new ≡ put_slot ws.old slot key row }
{
    put_word::<{ Cache::KEYS }, { Cache::SLOTS }>(ws, slot, key);
    put_word::<{ Cache::OWNERS }, { Cache::SLOTS }>(ws, slot, row as u64);
}

// ---- the instance record of a row, in four words

// A count has the low half of its word. Kept: `as` loses nothing here, and the library has no cast that truncates.
fn count_of(word: u64) -> u32
    ensures { result ≡ word % 4294967296 }
{
    (word % 4294967296) as u32
}

// Past the last row a new instance's record.
pub fn meta_at(ws: &[u64; Cache::WORDS], row: usize) -> InstanceMetaData
    ensures { result ≡ meta_at (metas_in ws.now) row }
{
    let (records, _) = ws[Cache::METAS..Cache::CELLS].as_chunks::<4>();
    match records.get(row) {
        Some(record) => {
            let [state, disposed, no_writers, last_generation_accessed] = *record;
            InstanceMetaData {
                instance_state: InstanceState::from(state),
                latest_generation_available: NotAliveGenerationCounts {
                    disposed_generation_count: count_of(disposed),
                    no_writers_generation_count: count_of(no_writers),
                },
                last_generation_accessed,
            }
        }
        None => InstanceMetaData::new(InstanceState::Alive),
    }
}

// Kept: store by store, since of words lent in chunks no clause says what all of them end as.
pub fn put_meta(ws: &mut [u64; Cache::WORDS], row: usize, x: InstanceMetaData)
    ensures { ws.new ≡ put_meta ws.old row x }
{
    if row < Cache::ROWS {
        let i = 4 * row;
        let counts = x.latest_generation_available;
        put_meta_word(ws, i, u64::from(x.instance_state.bit()));
        put_meta_word(ws, i + 1, u64::from(counts.disposed_generation_count));
        put_meta_word(ws, i + 2, u64::from(counts.no_writers_generation_count));
        put_meta_word(ws, i + 3, x.last_generation_accessed);
    }
}

// What was last accessed of the row's instance.
pub fn set_accessed(ws: &mut [u64; Cache::WORDS], row: usize, accessed: u64)
    ensures { ws.new ≡ put_meta_word ws.old (4 * row + 3) accessed }
{
    if row < Cache::ROWS {
        put_meta_word(ws, 4 * row + 3, accessed);
    }
}

// ---- searches

// How many names there are to look at.
pub fn rows_held(held: usize) -> usize
    ensures { result ≡ min held 32 }
{
    held.min(Cache::ROWS)
}

// The names of the rows held, in order of arrival.
pub fn names(ws: &[u64; Cache::WORDS], held: usize) -> &[u64]
    ensures { result.now ≡ take (min held 32) (names_in ws.now) }
{
    &ws[Cache::NAMES..Cache::NAMES + rows_held(held)]
}

fn place_in(names: &[u64], name: u64) -> Option<usize>
    ensures { result ≡ position (λ x. x == name) names.now }
{
    names.iter().position(|held| *held == name)
}

// The row of the name, or the number of rows held.
// Kept a number: `place_of` gives one, and a new instance takes the row behind the last.
pub fn find(ws: &[u64; Cache::WORDS], held: usize, name: u64) -> usize
    ensures { (s : Store) → Held s held ws.now → result ≡ place_of name s.insts }
{
    let names = names(ws, held);
    place_in(names, name).unwrap_or(names.len())
}
