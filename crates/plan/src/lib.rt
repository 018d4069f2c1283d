// An add, decided and written on numbers alone: the key, the instance's row, its lifecycle step, the slot.
#![tactic(auto)]

ghost use Rattle.std.specs.Prelude.{◌≡◌, cond, ◌&&◌, ℕ, ◌+◌, ◌*◌, ◌<◌, ◌≤◌, get_or, ltb, leb, eqb, OnErr};
ghost use Rattle.store.specs.Store.{Store, Inst, adding, placing, fresh_inst};
ghost use Rattle.index.specs.Words.{cells_in};
ghost use Rattle.index.specs.Memory.{Tied, Held};
ghost use Rattle.plan.specs.Plan.{wanted, Ready, Made, moved_along, committed};

use index::{Cache, Index, Window};
use refusals::Refusal;
use sampleinfo::{InstanceMetaData, InstanceState, NotAliveGenerationCounts};

// What the answer of an accepted add tells.
#[derive(Clone, Copy)]
pub struct Planned {
    pub key: u64,
    pub slot: usize,
    // the slot that was pushed out
    pub old: Option<usize>,
    // the counts after the lifecycle step
    pub counts: NotAliveGenerationCounts,
}

// The cell that an add pushes out of the row's window.
// Kept: 256 for none, which gives nothing back and stores nothing; an Option would want an arm at both.
fn oldest(ws: &[u64; Cache::WORDS], window: Window) -> usize
    ensures { result ≡ cond (eqb window.depth 0) 256 (get_or (cells_in ws.now) (window.depth * window.row) 0) }
{
    if window.depth() == 0 {
        Cache::SLOTS
    } else {
        index::cell_at(ws, window.first()) as usize
    }
}

// The window moves on by one: each cell takes what its next one held, and the last takes the slot.
// Kept: cell by cell, as `shifting` is defined: a window may reach past the cells, where a store changes nothing.
#[tactic(auto, unfolding(crate::specs::Plan::moved_along, crate::specs::Plan::shifting))]
fn move_on(ws: &mut [u64; Cache::WORDS], window: Window, slot: usize)
    ensures { ws.new ≡ moved_along ws.old (window.depth * window.row) window.depth slot }
{
    if window.depth() == 0 {
        return;
    }
    let first = window.first();
    let last = window.depth() - 1;
    for j in 0..last {
        let cell = index::cell_at(ws, first + (j + 1));
        index::put_cell(ws, first + j, cell);
    }
    index::put_cell(ws, first + last, slot as u64);
}

// The instance in its row and the sample in its slot; the slot that is pushed out is given back.
#[tactic(auto, unfolding(crate::specs::Plan::committed))]
fn commit(
    ws: &mut [u64; Cache::WORDS],
    window: Window,
    name: u64,
    x: InstanceMetaData,
    key: u64,
    slot: usize,
    old: usize,
)
    ensures { ws.new ≡ committed ws.old window.depth window.row name x key slot old }
{
    index::put_name(ws, window.row(), name);
    index::put_meta(ws, window.row(), x);
    move_on(ws, window, slot);
    index::put_slot(ws, old, 0, 0);
    index::put_slot(ws, slot, key, window.row());
}

// Room is made first, then the slot is chosen.
fn place(
    x: &mut Index,
    row: usize,
    name: u64,
    imd: InstanceMetaData,
    key: u64,
) -> Result<Planned, Refusal>
    ensures made { (s : Store) (i : Inst) → Tied s x.old.head x.old.words → Ready s row i → name ≡ i.name → imd ≡ i.meta → Made (placing s row i key) result x.new.head x.new.words }
    ensures as_found { OnErr result (x.new ≡ x.old) }
{
    let window = Window::of(x.head.depth, row).ok_or(Refusal::NoFreeSlot)?;
    let old = oldest(&x.words, window);
    let roomy = x.head.free.give(old);
    let slot = x.head.free.slot_for(roomy).ok_or(Refusal::NoFreeSlot)?;
    commit(&mut x.words, window, name, imd, key, slot, old);
    x.head = Cache {
        held: x.head.held.max(row + 1),
        last: Some(key),
        newest: slot,
        free: roomy.take(slot),
        ..x.head
    };
    Ok(Planned {
        key,
        slot,
        old: (old < Cache::SLOTS).then_some(old),
        counts: imd.latest_generation_available,
    })
}

// The record of the row's instance, or that of a new one.
fn old_meta(x: &Index, row: usize, state: InstanceState) -> InstanceMetaData
    ensures { (s : Store) (n : ℕ) → Held s x.now.head.held x.now.words → result ≡ (get_or s.insts row (fresh_inst s.keep n state)).meta }
{
    if row < x.head.held {
        index::meta_at(&x.words, row)
    } else {
        InstanceMetaData::new(state)
    }
}

// What an add does: it is refused and leaves all as found, or has its key, its slot and what it pushes out.
pub fn plan(x: &mut Index, name: u64, time: u64, state: InstanceState) -> Result<Planned, Refusal>
    ensures made { (s : Store) → Tied s x.old.head x.old.words → Made (adding s (wanted name time state)) result x.new.head x.new.words }
    ensures as_found { OnErr result (x.new ≡ x.old) }
{
    let key = keys::next(x.head.last, time).ok_or(Refusal::NoLaterKey)?;
    let row = index::find(&x.words, x.head.held, name);
    if x.head.held <= row && x.head.room <= x.head.held {
        return Err(Refusal::NoMoreInstances);
    }
    let before = old_meta(x, row, state);
    let after = sampleinfo::lifecycle(before, state).ok_or(Refusal::NoMoreGenerations)?;
    place(x, row, name, after, key)
}
