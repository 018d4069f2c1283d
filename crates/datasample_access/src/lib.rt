// datasample_cache.rs: read_by_keys and take_by_keys, over lent memory.
#![tactic(auto)]

ghost use Rattle.std.specs.Prelude.{◌≡◌, true, false, length, OnErr, MatchOption};
ghost use Rattle.sampleinfo.specs.Samples.{empty_sample};
ghost use Rattle.samples.specs.Table.{peek_at};
ghost use Rattle.store.specs.Store.{Store};
ghost use Rattle.model.specs.Model.{Model};
ghost use Rattle.index.specs.Memory.{Tied};
ghost use Rattle.refine.specs.Good.{Good};
ghost use Rattle.memory.specs.Lies.{Lies};
ghost use Rattle.infos.specs.Words.{places_in, put_infos};
ghost use Rattle.access.specs.Access.{run, infos_by, noted_all};
ghost use Rattle.datasample_access.specs.Listed.{touched_all, ranking_of, Served, not_listed, Unfit, listing, Came};

use index::{Cache, Index};
use refusals::Refusal;
use sampleinfo::{NotAliveGenerationCounts, Sample};

// What the ranks of a list are counted from: the latest-keyed live sample of the cache, and the counts of the last pair's instance.
fn ranking_of(latest: Sample, mrsic_generations: NotAliveGenerationCounts) -> infos::Ranking
    ensures { result ≡ ranking_of latest mrsic_generations }
{
    infos::Ranking {
        mrs_generations: latest.generation_counts,
        mrsic_generations,
    }
}

// The record in the slot, the empty record where there is none.
fn record_in(t: &[Sample], slot: Option<usize>) -> Sample
    ensures { MatchOption slot (result ≡ empty_sample) (λ i. result ≡ peek_at t.now i) }
{
    slot.map_or(Sample::empty(), |slot| samples::peek(t, slot))
}

// The infos of the slots, and what they show of each instance. The table stays: all is "as before the call".
fn collect(
    t: &[Sample],
    ws: &[u64; Cache::WORDS],
    slots: &[u64; Cache::SLOTS],
    n: usize,
    ranking: infos::Ranking,
    out: &mut [u64],
    seen: &mut [u64; Cache::ROWS],
)
    ensures out_after { out.new ≡ put_infos out.old 0 (infos_by ws.now t.now ranking (run n 0 slots.now)) }
    ensures seen_after { seen.new ≡ noted_all ws.now t.now seen.old (run n 0 slots.now) }
{
    for p in 0..n {
        let slot = access::slot_at(slots, p);
        let s = samples::peek(t, slot);
        access::show(ws, slot, s, p, n - 1 - p, ranking, out, seen);
    }
}

// Each slot emptied or its record marked.
fn touch_all(t: &mut [Sample], slots: &[u64; Cache::SLOTS], n: usize, take: bool)
    ensures { t.new ≡ touched_all t.old take (run n 0 slots.now) }
{
    for p in 0..n {
        let slot = access::slot_at(slots, p);
        samples::touch(t, slot, take);
    }
}

// What an accepted list does: infos first, then the table, then the index.
fn serve(
    x: &mut Index,
    t: &mut [Sample],
    slots: &[u64; Cache::SLOTS],
    n: usize,
    take: bool,
    out: &mut [u64],
)
    requires { length t.old ≡ 256 }
    ensures { (s : Store) → Tied s x.old.head x.old.words → Served s take n slots.now x.old.words t.old out.old x.new.head x.new.words t.new out.new }
{
    let latest = record_in(t, lookup::latest_slot(x));
    let ranking = ranking_of(latest, access::last_counts(&x.words, slots, n));
    let mut seen = [0; Cache::ROWS];
    collect(t, &x.words, slots, n, ranking, out, &mut seen);
    touch_all(t, slots, n, take);
    access::settle(x, slots, n, take, &seen);
}

// A list read or taken: whatever is refused is refused before anything changes. The answer is how many infos were written.
// Kept: `take` is the model's own Bool, as `read_or_take` has it.
fn by_keys(
    x: &mut Index,
    t: &mut [Sample],
    list: &[u64],
    take: bool,
    out: &mut [u64],
) -> Result<usize, Refusal>
    ensures came { (m : Model) → Good m → Lies m x.old.head x.old.words t.old → Came (listing m take list.now (places_in out.old)) result x.new.head x.new.words t.new out.old out.new }
    ensures value { Unfit t.old list.now → (result ≡ not_listed) × (x.new ≡ x.old) × (t.new ≡ t.old) × (out.new ≡ out.old) }
    ensures as_found { OnErr result ((x.new ≡ x.old) × (t.new ≡ t.old) × (out.new ≡ out.old)) }
{
    // the table is a lent slice by the rule, so its length is asked
    if t.len() != Cache::SLOTS {
        return Err(Refusal::Malformed);
    }
    let mut slots = [0; Cache::SLOTS];
    access::refusal(x, list, infos::places(out), &mut slots)?;
    let n = list.len() / 2;
    serve(x, t, &slots, n, take, out);
    Ok(n)
}

// Kept, this one and the next: both are the library's public calls.
// Marks the samples Read. The infos go to `out`, 27 words each; the answer is how many there are.
pub fn read_by_keys(
    x: &mut Index,
    t: &mut [Sample],
    list: &[u64],
    out: &mut [u64],
) -> Result<usize, Refusal>
    ensures came { (m : Model) → Good m → Lies m x.old.head x.old.words t.old → Came (listing m false list.now (places_in out.old)) result x.new.head x.new.words t.new out.old out.new }
    ensures value { Unfit t.old list.now → (result ≡ not_listed) × (x.new ≡ x.old) × (t.new ≡ t.old) × (out.new ≡ out.old) }
    ensures as_found { OnErr result ((x.new ≡ x.old) × (t.new ≡ t.old) × (out.new ≡ out.old)) }
{
    by_keys(x, t, list, false, out)
}

// Removes the samples. The infos go to `out`, 27 words each; the answer is how many there are.
pub fn take_by_keys(
    x: &mut Index,
    t: &mut [Sample],
    list: &[u64],
    out: &mut [u64],
) -> Result<usize, Refusal>
    ensures came { (m : Model) → Good m → Lies m x.old.head x.old.words t.old → Came (listing m true list.now (places_in out.old)) result x.new.head x.new.words t.new out.old out.new }
    ensures value { Unfit t.old list.now → (result ≡ not_listed) × (x.new ≡ x.old) × (t.new ≡ t.old) × (out.new ≡ out.old) }
    ensures as_found { OnErr result ((x.new ≡ x.old) × (t.new ≡ t.old) × (out.new ≡ out.old)) }
{
    by_keys(x, t, list, true, out)
}
