// datasample_cache.rs: setting up, adding, the no-writers event, the next key.
#![tactic(auto)]

ghost use Rattle.std.specs.Prelude.{◌≡◌, ◌*◌, ◌^◌, ◌<◌, ◌≤◌, ◌&&◌, leb, pos, List, OnErr};
ghost use Rattle.std.proofs.Math.Option.{Option};
ghost use Rattle.sampleinfo.specs.Samples.{unread};
ghost use Rattle.sampleinfo.specs.declared.Sample.{Sample};
ghost use Rattle.model.specs.Model.{Model, Call, step, counts_kept, counts_none, within};
ghost use Rattle.refine.specs.Good.{Good};
ghost use Rattle.memory.specs.Lies.{Lies};
ghost use Rattle.datasample_cache.specs.Adding.{arrival};
ghost use Rattle.datasample_cache.specs.Came.{Came, evicted_of, Unfit, not_added};
ghost use Rattle.datasample_cache.specs.Others.{next_as, set_up_of, count_in, kept_in, depth_in, SetsUp, Dies};

use index::{Cache, Index};
use refusals::Refusal;
use sampleinfo::{Body, NotAliveGenerationCounts, Sample};

// ---- adding

// What was issued, and the handle that was pushed out, if any.
#[derive(Clone, Copy)]
pub struct Added {
    pub key: u64,
    pub slot: usize,
    pub evicted: Option<u32>,
}

// The record of the new sample: unread, with the counts as they stand after its own step.
fn record_of(
    counts: NotAliveGenerationCounts,
    writer_guid: [u8; 16],
    sequence_number: u64,
    body: Body,
) -> Sample
    ensures { result ≡ unread counts writer_guid sequence_number body }
{
    Sample {
        generation_counts: counts,
        writer_guid,
        sequence_number,
        sample_has_been_read: false,
        body,
    }
}

// The handle of the record that was in the slot pushed out.
fn evicted_of(old: Option<usize>, out: Sample) -> Option<u32>
    ensures { result ≡ evicted_of old out }
{
    old.map(|_| out.body.handle())
}

// add_sample: worked out on numbers, then the table is touched.
// Kept: the numbers of an add one by one, since the call's parameters may not change.
pub fn add(
    x: &mut Index,
    t: &mut [Sample],
    instance: u64,
    writer_guid: [u8; 16],
    sequence_number: u64,
    time: u64,
    kind: u8,
    handle: u32,
) -> Result<Added, Refusal>
    ensures came { (m : Model) → Good m → Lies m x.old.head x.old.words t.old → Came (step m (Call.add (arrival instance writer_guid sequence_number time kind handle))) result x.new.head x.new.words t.new }
    ensures value { Unfit t.old (arrival instance writer_guid sequence_number time kind handle) → (result ≡ not_added) × (x.new ≡ x.old) × (t.new ≡ t.old) }
    ensures as_found { OnErr result ((x.new ≡ x.old) × (t.new ≡ t.old)) }
{
    // the table is a lent slice by the rule, so its length is asked
    if t.len() != Cache::SLOTS {
        return Err(Refusal::Malformed);
    }
    let body = Body::arrived(kind, handle, sequence_number).ok_or(Refusal::Malformed)?;
    let p = plan::plan(x, instance, time, body.instance_state())?;
    let s = record_of(p.counts, writer_guid, sequence_number, body);
    // 256 for none, as `swap` has it
    let out = samples::swap(t, p.old.unwrap_or(Cache::SLOTS), p.slot, s);
    Ok(Added {
        key: p.key,
        slot: p.slot,
        evicted: evicted_of(p.old, out),
    })
}

// ---- set-up
// A mode stays a number: any number must be answered, and the model's set-up has one.

// The keep field as a count; none below 0.
fn count_in(keep: i32) -> Option<usize>
    ensures { result ≡ count_in keep }
{
    usize::try_from(keep).ok()
}

// Modes 1 and 2: the keep field is the keep count.
fn counts_kept(mode: u8) -> bool
    ensures { result ≡ counts_kept mode }
{
    matches!(mode, 1 | 2)
}

// Modes 3 and 4: the keep field is 0.
fn counts_none(mode: u8) -> bool
    ensures { result ≡ counts_none mode }
{
    matches!(mode, 3 | 4)
}

// At least 1, and at most 256 over all instances.
fn keep_fits(keep: usize, instances: usize) -> bool
    requires { (instances ≤ 32) × (keep < 2 ^ 32) }
    ensures { result ≡ leb 1 keep && leb (instances * keep) 256 }
{
    1 <= keep && instances * keep <= Cache::SLOTS
}

// Whether a set-up is within the bounds.
#[tactic(auto, unfolding(model::specs::Model::within))]
fn is_within(mode: u8, keep: usize, instances: usize) -> bool
    requires { keep < 2 ^ 32 }
    ensures { result ≡ within (set_up_of mode (pos keep) instances) }
{
    (1..=Cache::ROWS).contains(&instances)
        && (counts_kept(mode) && keep_fits(keep, instances) || counts_none(mode) && keep == 0)
}

// The depth that is kept: 0 for no keep count (mode 3), as the header has it, and 1 with no history policy (mode 4).
fn kept(mode: u8, keep: usize) -> usize
    ensures { result ≡ kept_in mode keep }
{
    match mode {
        3 => 0,
        4 => 1,
        _ => keep,
    }
}

// The depth that a set-up asks for; none where it is out of its bounds.
fn depth_in(mode: u8, keep: i32, instances: u16) -> Option<usize>
    ensures { result ≡ depth_in (set_up_of mode keep instances) }
{
    let keep = count_in(keep)?;
    is_within(mode, keep, usize::from(instances)).then_some(kept(mode, keep))
}

// An accepted set-up makes the cache fresh, whatever the table held; a refused one leaves all as found.
pub fn set_up(t: &mut [Sample], mode: u8, keep: i32, instances: u16) -> Result<Index, Refusal>
    ensures { SetsUp (set_up_of mode keep instances) result t.old t.new }
{
    // the table is a lent slice by the rule, so its length is asked
    if t.len() != Cache::SLOTS {
        return Err(Refusal::Malformed);
    }
    let depth = depth_in(mode, keep, instances).ok_or(Refusal::OutOfBounds)?;
    samples::fill(t);
    Ok(change::set_up(depth, usize::from(instances)))
}

// ---- the no-writers event, and the next key: the table is not asked

pub fn no_writers(x: &mut Index, instance: u64) -> Result<(), Refusal>
    ensures dies { (m : Model) (t : List Sample) → Good m → Lies m x.old.head x.old.words t → Dies (step m (Call.no_writers instance)) result x.new.head x.new.words t }
    ensures head_as_found { x.new.head ≡ x.old.head }
    ensures as_found { OnErr result (x.new ≡ x.old) }
{
    change::no_writers(x, instance)
}

pub fn next_key(x: &Index, instance: u64) -> Option<u64>
    ensures { (m : Model) (t : List Sample) → Good m → Lies m x.now.head x.now.words t → step m (Call.next_key instance) ≡ record { answer = next_as result; then = m } }
{
    lookup::next_key(x, instance)
}
