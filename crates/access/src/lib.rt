// Reading and taking a list on numbers: what is refused, which slots the list names, what is shown of each, and what is left in the index.
#![tactic(auto)]

ghost use Rattle.std.specs.Prelude.{◌≡◌, ℕ, ◌+◌, ◌*◌, ◌/◌, ◌<◌, ◌≤◌, length, get_or};
ghost use Rattle.sampleinfo.specs.Counts.{accessed_at};
ghost use Rattle.sampleinfo.specs.Samples.{total_of};
ghost use Rattle.pairs.specs.Flat.{pairs_of};
ghost use Rattle.pairs.specs.Repeat.{bad_by, place_in};
ghost use Rattle.store.specs.Store.{Store};
ghost use Rattle.index.specs.Words.{metas_in, owners_in, meta_at};
ghost use Rattle.index.specs.Memory.{Tied, Held};
ghost use Rattle.infos.specs.Infos.{ranks_from, info_from};
ghost use Rattle.infos.specs.Words.{put_info};
ghost use Rattle.access.specs.Access.{slot_at, run, Judges, Found, bad_of, noted, last_counts, freed_each, viewed_word, viewed_by, settled};

use index::{Cache, Index};
use refusals::Refusal;
use sampleinfo::{NotAliveGenerationCounts, Sample};

// ---- what is refused

// A bad pair of a list: what is wrong with it, and where it stands, counted from 0.
#[derive(Clone, Copy)]
enum Bad {
    NotLive(usize),
    Twice(usize),
}

// The slot of each pair goes to its place, up to the first pair that is not live. The answer is that one's place.
fn find_slots(x: &Index, list: &[u64], slots: &mut [u64; Cache::SLOTS]) -> Option<usize>
    requires { length list.now / 2 ≤ 256 }
    ensures { (s : Store) → length slots.old ≡ 256 → Tied s x.now.head x.now.words → Found s (pairs_of list.now) result slots.old slots.new }
{
    let (pairs, _) = list.as_chunks::<2>();
    for (i, pair) in pairs.iter().enumerate() {
        let Some(slot) = lookup::locate(x, pair[0], pair[1]) else {
            return Some(i);
        };
        slots[i] = slot as u64;
    }
    None
}

// By the places of the first that is not live and of the first repeat: the earlier one decides.
fn first_bad(dead: Option<usize>, twice: Option<usize>) -> Option<Bad>
    ensures { (n d r : ℕ) → d ≤ n → r ≤ n → dead ≡ place_in n d → twice ≡ place_in n r → bad_of result ≡ bad_by d r n }
{
    match (dead, twice) {
        (Some(dead), Some(twice)) if twice < dead => Some(Bad::Twice(twice)),
        (Some(dead), _) => Some(Bad::NotLive(dead)),
        (None, Some(twice)) => Some(Bad::Twice(twice)),
        (None, None) => None,
    }
}

// "Lists: 8, 9", after 1. The slots of a list that is accepted stand first in `slots`. The room is in infos.
pub fn refusal(
    x: &Index,
    list: &[u64],
    room: usize,
    slots: &mut [u64; Cache::SLOTS],
) -> Result<(), Refusal>
    ensures { Judges x.now.head x.now.words list.now room result slots.old slots.new }
{
    if !pairs::whole(list) {
        return Err(Refusal::Malformed);
    }
    let n = list.len() / 2;
    // no more than 256 pairs are live, so one of these is bad
    if Cache::SLOTS < n {
        return Err(Refusal::BadList);
    }
    let twice = pairs::first_repeat(list);
    let dead = find_slots(x, list, slots);
    if first_bad(dead, twice).is_some() {
        return Err(Refusal::BadList);
    }
    if room < n {
        return Err(Refusal::NoRoom);
    }
    Ok(())
}

// ---- what is shown

// The slot at a place of the list.
// Kept: 256 past the end, as the definition has it: the number of no slot, which changes nothing.
pub fn slot_at(slots: &[u64; Cache::SLOTS], p: usize) -> usize
    ensures { result ≡ slot_at slots.now p }
{
    slots.get(p).map_or(Cache::SLOTS, |slot| *slot as usize)
}

// The counts of the instance of the list's last pair.
// Kept: slots and n side by side, here and below: the contracts speak of n and of `run n 0 slots`, and may not change.
#[tactic(auto, unfolding(crate::specs::Access::last_counts))]
pub fn last_counts(
    ws: &[u64; Cache::WORDS],
    slots: &[u64; Cache::SLOTS],
    n: usize,
) -> NotAliveGenerationCounts
    ensures { result ≡ last_counts ws.now slots.now n }
{
    if n == 0 {
        return NotAliveGenerationCounts::zero();
    }
    let row = index::owner_at(ws, slot_at(slots, n - 1)) as usize;
    index::meta_at(ws, row).latest_generation_available
}

// What was accessed of a row: the greatest so far. An `if` and not `max`, which stores where nothing rises too.
#[tactic(auto, unfolding(crate::specs::Access::noted))]
fn note(seen: &mut [u64; Cache::ROWS], row: usize, accessed: u64)
    ensures { seen.new ≡ noted seen.old row accessed }
{
    if row < Cache::ROWS && seen[row] < accessed {
        seen[row] = accessed;
    }
}

// The info of a slot's sample goes to place p of the list, which `follow` others come after; what the list showed of its instance is noted.
pub fn show(
    ws: &[u64; Cache::WORDS],
    slot: usize,
    s: Sample,
    p: usize,
    follow: usize,
    ranking: infos::Ranking,
    out: &mut [u64],
    seen: &mut [u64; Cache::ROWS],
)
    ensures out_after { out.new ≡ put_info out.old p (info_from s (meta_at (metas_in ws.now) (get_or (owners_in ws.now) slot 0)) (ranks_from ranking follow s.generation_counts)) }
    ensures seen_after { seen.new ≡ noted seen.old (get_or (owners_in ws.now) slot 0) (accessed_at (total_of s)) }
{
    let row = index::owner_at(ws, slot) as usize;
    let imd = index::meta_at(ws, row);
    let counts = s.generation_counts;
    let ranks = ranking.of_place(follow as u64, counts);
    infos::put_info(out, p, infos::make_sample_info(s, imd, ranks));
    note(seen, row, counts.accessed());
}

// ---- what is left

// The slots become free, one after the other.
fn free_all(x: &mut Index, slots: &[u64; Cache::SLOTS], n: usize)
    ensures { (s : Store) → Tied s x.old.head x.old.words → Tied (freed_each s (run n 0 slots.now)) x.new.head x.new.words }
{
    for p in 0..n {
        let slot = slot_at(slots, p);
        let row = index::owner_at(&x.words, slot) as usize;
        change::free_slot(x, row, slot);
    }
}

// An instance that the list did not show keeps what it had.
// Kept: 0 for not shown, as in `viewed_word`: a total that was accessed has 2 added.
fn view_row(ws: &mut [u64; Cache::WORDS], row: usize, accessed: u64)
    ensures { ws.new ≡ viewed_word ws.old row accessed }
{
    if accessed != 0 {
        index::set_accessed(ws, row, accessed);
    }
}

// mark_instances_viewed: each instance gets what was seen of it.
fn view_rows(x: &mut Index, seen: &[u64; Cache::ROWS])
    ensures viewed { (s : Store) → Held s x.old.head.held x.old.words → Held (viewed_by seen.now s) x.old.head.held x.new.words }
    ensures head_as_found { x.new.head ≡ x.old.head }
{
    let shown = &seen[..index::rows_held(x.head.held)];
    for (row, accessed) in shown.iter().enumerate() {
        view_row(&mut x.words, row, *accessed);
    }
}

// What the call leaves in the header and the index, once its infos are made. `take` is the model's own Bool: a read and a
// take differ in this one step.
pub fn settle(
    x: &mut Index,
    slots: &[u64; Cache::SLOTS],
    n: usize,
    take: bool,
    seen: &[u64; Cache::ROWS],
)
    ensures { (s : Store) → Tied s x.old.head x.old.words → Tied (settled s take (run n 0 slots.now) seen.now) x.new.head x.new.words }
{
    if take {
        free_all(x, slots, n);
    }
    view_rows(x, seen);
}
