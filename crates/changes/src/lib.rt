// The places of a topic cache in lent numbers: 384 of six words each, the oldest change first from place 0, zeros behind the last.
// They stand for the map `changes` and its index `sequence_numbers` of dds_cache.rs.
#![tactic(auto)]

ghost use Rattle.std.specs.Prelude.{◌≡◌, ◌&&◌, List, [], ◌∷◌, ◌++◌, ◌%◌, ◌<◌, ◌≤◌, ltb, leb, length, drop, map};
ghost use Rattle.model.specs.Topic.{Entry, count_below, holds_pair};
ghost use Rattle.changes.specs.declared.Row.{Row};
ghost use Rattle.changes.specs.Places.{Writer, Written, Holds, line_of, cells, words_of, entry_of, row_of, row_at, Ranging, Copying, guid_of, kept_of, kept_at};

// A change as it comes in. Its key is given by the cache.
#[derive(Clone, Copy, Default)]
pub struct CacheChange {
    pub writer_guid: [u8; 16],
    pub sequence_number: u64,
    pub handle: u32,
    pub payload_size: u32,
}

// A change with its key, as a place or a result holds it.
#[derive(Clone, Copy, Default)]
pub struct Kept {
    pub key: u64,
    pub change: CacheChange,
}

// The six words of a place.
#[derive(Clone, Copy)]
struct Row {
    key: u64,
    seq: u64,
    low: u64,
    high: u64,
    handle: u64,
    size: u64,
}

// Writer and sequence number of a row.
#[derive(Clone, Copy, PartialEq, Eq)]
struct Pair {
    seq: u64,
    low: u64,
    high: u64,
}

impl CacheChange {
    pub const PLACES: usize = 384;

    pub const WORDS: usize = 6;

    // the lent words
    pub const TABLE: usize = CacheChange::PLACES * CacheChange::WORDS;
}

// ---- a change, its row and the row's words

impl From<[u64; CacheChange::WORDS]> for Row {
    ghost from_gives = { λ x y. y ≡ row_at x 0 };

    fn from(words: [u64; CacheChange::WORDS]) -> Row {
        let [key, seq, low, high, handle, size] = words;
        Row {
            key,
            seq,
            low,
            high,
            handle,
            size,
        }
    }
}

impl From<Row> for [u64; CacheChange::WORDS] {
    ghost from_gives = { λ x y. y ≡ cells x };

    fn from(row: Row) -> [u64; CacheChange::WORDS] {
        [row.key, row.seq, row.low, row.high, row.handle, row.size]
    }
}

impl From<Kept> for Row {
    ghost from_gives = { λ x y. (y ≡ row_of (entry_of x.change x.key)) × Writer x.change.writer_guid };

    fn from(kept: Kept) -> Row {
        let change = kept.change;
        // Each half is eight bytes of the writer as one number, the first the lowest.
        let (halves, _) = change.writer_guid.as_chunks::<8>();
        Row {
            key: kept.key,
            seq: change.sequence_number,
            low: u64::from_le_bytes(halves[0]),
            high: u64::from_le_bytes(halves[1]),
            handle: u64::from(change.handle),
            size: u64::from(change.payload_size),
        }
    }
}

fn guid_of(low: u64, high: u64) -> [u8; 16]
    ensures { result ≡ guid_of low high }
{
    let mut guid = [0; 16];
    guid[..8].copy_from_slice(&low.to_le_bytes());
    guid[8..].copy_from_slice(&high.to_le_bytes());
    guid
}

fn low_half(w: u64) -> u32
    ensures { result ≡ w % 4294967296 }
{
    (w & 0xFFFF_FFFF) as u32
}

impl From<Row> for Kept {
    ghost from_gives = { λ x y. y ≡ kept_of x };

    fn from(row: Row) -> Kept {
        Kept {
            key: row.key,
            change: CacheChange {
                writer_guid: guid_of(row.low, row.high),
                sequence_number: row.seq,
                handle: low_half(row.handle),
                payload_size: low_half(row.size),
            },
        }
    }
}

impl Row {
    fn pair(self) -> Pair
        ensures { (result.seq ≡ self.seq) × (result.low ≡ self.low) × (result.high ≡ self.high) }
    {
        Pair {
            seq: self.seq,
            low: self.low,
            high: self.high,
        }
    }
}

// The rows of the held places. (words, held) as the public functions have them; inside, the held rows are this slice.
fn rows(words: &[u64; CacheChange::TABLE], held: usize) -> &[[u64; CacheChange::WORDS]]
    ensures { (es : List Entry) → Holds es held words.now → result.now ≡ map line_of es }
{
    let (rows, _) = words.as_chunks::<{ CacheChange::WORDS }>();
    &rows[..held.min(rows.len())]
}

// ---- looking

// How many held keys are below a time.
pub fn count_below(words: &[u64; CacheChange::TABLE], held: usize, before: u64) -> usize
    ensures { (es : List Entry) → Holds es held words.now → result ≡ count_below before es }
{
    // A loop, since `filter(..).count()` takes half as much again for a row.
    let mut n = 0;
    for row in rows(words, held) {
        n += usize::from(row[0] < before);
    }
    n
}

pub fn find_by_sn(
    words: &[u64; CacheChange::TABLE],
    from: usize,
    held: usize,
    cc: CacheChange,
) -> bool
    ensures { (es : List Entry) → Holds es held words.now → Written es → result ≡ holds_pair cc.writer_guid cc.sequence_number (drop from es) }
{
    let sought = Row::from(Kept { key: 0, change: cc }).pair();
    rows(words, held)
        .iter()
        .skip(from)
        .any(|row| Row::from(*row).pair() == sought)
}

// ---- removing and adding

// Empties all places.
pub fn clear_all(words: &mut [u64; CacheChange::TABLE])
    ensures { words.new ≡ words_of [] }
{
    words.fill(0);
}

// Drops the oldest n: the rest moves down and leaves zeros behind.
pub fn drop_oldest(words: &mut [u64; CacheChange::TABLE], held: usize, n: usize)
    ensures { (es : List Entry) → Holds es held words.old → n ≤ held → words.new ≡ words_of (drop n es) }
{
    // Most calls drop none: without this each would copy the held words onto themselves.
    if n == 0 {
        return;
    }
    if n <= held && held <= CacheChange::PLACES {
        let left = CacheChange::WORDS * (held - n);
        let end = CacheChange::WORDS * held;
        words.copy_within(CacheChange::WORDS * n..end, 0);
        words[left..end].fill(0);
    }
}

// A change put behind the last.
pub fn insert(words: &mut [u64; CacheChange::TABLE], at: usize, key: u64, cc: CacheChange)
    ensures { (es : List Entry) → Holds es at words.old → at < 384 → words.new ≡ words_of (es ++ (entry_of cc key ∷ [])) }
{
    if at < CacheChange::PLACES {
        let row = Row::from(Kept { key, change: cc });
        let cells = <[u64; CacheChange::WORDS]>::from(row);
        let first = CacheChange::WORDS * at;
        words[first..first + CacheChange::WORDS].copy_from_slice(&cells);
    }
}

// ---- the range

fn in_range(key: u64, start: u64, end: u64) -> bool
    ensures { result ≡ (ltb start key && leb key end) }
{
    start < key && key <= end
}

// How many held keys are above start and up to end.
pub fn count_in_range(words: &[u64; CacheChange::TABLE], held: usize, start: u64, end: u64) -> usize
    ensures { Ranging words.now held start end result }
{
    rows(words, held)
        .iter()
        .filter(|row| in_range(row[0], start, end))
        .count()
}

// The held changes with keys above start and up to end, in key order, to the results.
pub fn copy_in_range(
    words: &[u64; CacheChange::TABLE],
    held: usize,
    start: u64,
    end: u64,
    out: &mut [u64],
)
    ensures { Copying words.now held start end out.old out.new }
{
    let found = rows(words, held)
        .iter()
        .filter(|row| in_range(row[0], start, end));
    // By place: of `chunks_exact_mut` no clause says what the results end as.
    for (n, row) in found.enumerate() {
        if n < out.len() / CacheChange::WORDS {
            let first = CacheChange::WORDS * n;
            out[first..first + CacheChange::WORDS].copy_from_slice(row);
        }
    }
}

// ---- a result with its writer as sixteen bytes

// The i-th change of the results, zeros past their end.
pub fn kept_at(out: &[u64], i: usize) -> Kept
    ensures { result ≡ kept_at out.now i }
{
    let (rows, _) = out.as_chunks::<{ CacheChange::WORDS }>();
    match rows.get(i) {
        Some(row) => Kept::from(Row::from(*row)),
        None => Kept::default(),
    }
}
