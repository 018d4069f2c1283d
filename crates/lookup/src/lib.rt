// What is asked of the cache and changes nothing: the next instance key, the slot of a pair, the slot of the latest sample.
#![tactic(auto)]

ghost use Rattle.std.specs.Prelude.{◌≡◌, cond, not, ◌&&◌, ℕ, ◌*◌, ◌<◌, ◌≤◌, get_or, ltb, eqb};
ghost use Rattle.slots.specs.Bits.{bits_of, free_at};
ghost use Rattle.store.specs.Store.{Store, next_name, slot_named, cell_keyed, slot_keyed, later_slot, greatest_from, latest_slot, inst_at};
ghost use Rattle.index.specs.Words.{keys_in, owners_in};
ghost use Rattle.index.specs.Memory.{Tied, Held};
ghost use Rattle.lookup.specs.Lookup.{next_of, least_of, nearer_of, pair_of, slot_in, Windowed, Slotted};

use index::{Cache, Index, Window};

// ---- the next instance key

// The best so far and one name more: only a name above the given one counts.
fn nearer(best: Option<u64>, given: u64, name: u64) -> Option<u64>
    ensures { result ≡ nearer_of given name best }
{
    if given < name {
        Some(best.map_or(name, |least| least.min(name)))
    } else {
        best
    }
}

// The smallest held instance key above the given one, held or not.
// Kept: from the last row down, as `next_name` is defined.
pub fn next_key(x: &Index, name: u64) -> Option<u64>
    ensures { (s : Store) → Held s x.now.head.held x.now.words → result ≡ next_of (next_name name s.insts) }
{
    let mut best = None;
    for row in (0..index::rows_held(x.head.held)).rev() {
        best = nearer(best, name, index::name_at(&x.words, row));
    }
    best
}

// ---- the slot that a pair names

// The cell is a slot, and its sample has that key.
fn holds(ws: &[u64; Cache::WORDS], cell: usize, key: u64) -> bool
    ensures { result ≡ ltb cell 256 && eqb (get_or (keys_in ws.now) cell 0) key }
{
    cell < Cache::SLOTS && index::key_at(ws, cell) == key
}

// With a keep count: among the cells of the row.
// Kept: cell by cell, as `Windowed` says of the words what each cell of a row is; a slice of them is spoken of nowhere.
fn among_cells(ws: &[u64; Cache::WORDS], window: Window, key: u64) -> Option<usize>
    ensures { (s : Store) → Windowed s window.depth window.row ws.now → result ≡ slot_in (cell_keyed key s.keys (inst_at s window.row).cells) }
{
    let first = window.first();
    for j in 0..window.depth() {
        let cell = index::cell_at(ws, first + j) as usize;
        if holds(ws, cell, key) {
            return Some(cell);
        }
    }
    None
}

// The slot is of the row, and its sample has that key.
fn is_its(x: &Index, slot: usize, row: usize, key: u64) -> bool
    ensures { result ≡ not (free_at (bits_of x.now.head.free.words) slot) && (eqb (get_or (keys_in x.now.words) slot 0) key && eqb (get_or (owners_in x.now.words) slot 0) row) }
{
    let Index { head, words } = x;
    !head.free.is_free(slot)
        && index::key_at(words, slot) == key
        && index::owner_at(words, slot) == row as u64
}

// With no keep count: among all slots.
// Kept: of `(0..SLOTS).find(..)` the tie of its run to `slot_keyed` did not close.
fn among_slots(x: &Index, row: usize, key: u64) -> Option<usize>
    ensures { (s : Store) → Slotted s x.now.head.free.words x.now.words → result ≡ slot_in (slot_keyed 256 0 key row s) }
{
    for slot in 0..Cache::SLOTS {
        if is_its(x, slot, row, key) {
            return Some(slot);
        }
    }
    None
}

pub fn locate(x: &Index, key: u64, name: u64) -> Option<usize>
    ensures { (s : Store) → Tied s x.now.head x.now.words → result ≡ slot_in (slot_named s (pair_of key name)) }
{
    let row = index::find(&x.words, x.head.held, name);
    if x.head.held <= row {
        None
    } else if x.head.depth == 0 {
        among_slots(x, row, key)
    } else {
        among_cells(&x.words, Window::of(x.head.depth, row)?, key)
    }
}

// ---- the slot of the latest sample

// The best so far has a later key than the slot.
fn beats(ws: &[u64; Cache::WORDS], best: Option<usize>, slot: usize) -> bool
    ensures { (r : ℕ) → best ≡ slot_in r → result ≡ ltb r 256 && ltb (get_or (keys_in ws.now) slot 0) (get_or (keys_in ws.now) r 0) }
{
    best.is_some_and(|best| index::key_at(ws, slot) < index::key_at(ws, best))
}

fn later(x: &Index, slot: usize, best: Option<usize>) -> Option<usize>
    ensures { (r : ℕ) → best ≡ slot_in r → slot < 256 → result ≡ slot_in (cond (free_at (bits_of x.now.head.free.words) slot) r (later_slot (keys_in x.now.words) slot r)) }
{
    if x.head.free.is_free(slot) || beats(&x.words, best, slot) {
        best
    } else {
        Some(slot)
    }
}

// The live slot with the greatest key.
// Kept: from the last slot down, as `greatest_from` is defined: of equal keys the lower slot wins.
fn greatest(x: &Index) -> Option<usize>
    ensures { (s : Store) → Slotted s x.now.head.free.words x.now.words → result ≡ slot_in (greatest_from 256 0 s) }
{
    let mut best = None;
    for slot in (0..Cache::SLOTS).rev() {
        best = later(x, slot, best);
    }
    best
}

// That of the last accepted sample while it is live.
pub fn latest_slot(x: &Index) -> Option<usize>
    ensures { (s : Store) → Tied s x.now.head x.now.words → result ≡ slot_in (latest_slot s) }
{
    if x.head.newest < Cache::SLOTS {
        return Some(x.head.newest);
    }
    greatest(x)
}
