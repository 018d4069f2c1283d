// What changes the cache beside an add: an accepted set-up, the no-writers event, a slot that becomes free.
#![tactic(auto)]

ghost use Rattle.std.specs.Prelude.{◌≡◌, cond, ℕ, ◌+◌, ◌*◌, ◌<◌, ◌≤◌, eqb, OnErr};
ghost use Rattle.std.proofs.Math.Option.{Option};
ghost use Rattle.store.specs.Store.{Store, dying};
ghost use Rattle.store.specs.Fit.{depth_of};
ghost use Rattle.index.specs.Memory.{Tied, Held, fresh_store};
ghost use Rattle.change.specs.Change.{Left, Kept, freed_at, empty_cell, emptying, cleared};

use index::{Cache, Index, Window};
use refusals::Refusal;
use slots::Free;

// The cell of no slot.
const NO_SLOT: u64 = Cache::SLOTS as u64;

// ---- set-up

// Every cell holds no slot.
fn clear_cells(ws: &mut [u64; Cache::WORDS])
    ensures { ws.new ≡ cleared ws.old }
{
    ws[Cache::CELLS..Cache::KEYS].fill(NO_SLOT);
}

// The fresh cache. The depth is 0 for no keep count, as in its header.
pub fn set_up(depth: usize, room: usize) -> Index
    ensures { (keep : Option ℕ) → depth ≡ depth_of keep → Kept (fresh_store keep room) result.head result.words }
{
    let mut words = [0; Cache::WORDS];
    clear_cells(&mut words);
    let head = Cache {
        depth,
        room,
        held: 0,
        last: None,
        newest: Cache::SLOTS,
        free: Free::all(),
    };
    Index { head, words }
}

// ---- the no-writers event

// An unknown instance is refused.
pub fn no_writers(x: &mut Index, name: u64) -> Result<(), Refusal>
    ensures left { (s : Store) → Held s x.old.head.held x.old.words → Left (dying s name) result x.new.words }
    ensures head_as_found { x.new.head ≡ x.old.head }
    ensures as_found { OnErr result (x.new ≡ x.old) }
{
    let row = index::find(&x.words, x.head.held, name);
    if x.head.held <= row {
        return Err(Refusal::UnknownInstance);
    }
    let record = index::meta_at(&x.words, row);
    index::put_meta(&mut x.words, row, sampleinfo::no_writers(record));
    Ok(())
}

// ---- a slot that becomes free

// The cell, or that of no slot where it holds the slot.
fn without(cell: u64, slot: usize) -> u64
    ensures { result ≡ empty_cell slot cell }
{
    if cell == slot as u64 { NO_SLOT } else { cell }
}

// The slot is in none of the row's cells any more.
// Kept: cell by cell, as `emptying` is defined: a window may reach past the cells, where a store changes nothing.
#[tactic(auto, unfolding(crate::specs::Change::emptying))]
fn empty_cells(ws: &mut [u64; Cache::WORDS], window: Window, slot: usize)
    ensures { ws.new ≡ emptying ws.old (window.depth * window.row) slot window.depth }
{
    let first = window.first();
    for j in 0..window.depth() {
        let cell = index::cell_at(ws, first + j);
        index::put_cell(ws, first + j, without(cell, slot));
    }
}

// The slot of a sample that is taken from the instance of that row. A row that is not held changes nothing.
pub fn free_slot(x: &mut Index, row: usize, slot: usize)
    ensures { (s : Store) → Tied s x.old.head x.old.words → Kept (freed_at s row slot) x.new.head x.new.words }
{
    match Window::of(x.head.depth, row) {
        Some(window) if row < x.head.held => {
            empty_cells(&mut x.words, window, slot);
            index::put_slot(&mut x.words, slot, 0, 0);
            x.head = Cache {
                newest: if x.head.newest == slot {
                    Cache::SLOTS
                } else {
                    x.head.newest
                },
                free: x.head.free.give(slot),
                ..x.head
            };
        }
        _ => {}
    }
}
