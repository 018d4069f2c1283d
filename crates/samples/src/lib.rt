// The sample table: a run of records that the host lends. Few thin functions touch it; whatever is decided is decided on numbers.
#![tactic(auto)]

ghost use Rattle.std.specs.Prelude.{◌≡◌, ◌<◌, length, set, get_or, replicate};
ghost use Rattle.sampleinfo.specs.Samples.{empty_sample, marked_read};
ghost use Rattle.samples.specs.Table.{peek_at, swapped, touched, empty_table, put_seen, gathered};

use sampleinfo::{Sample, State};

// ---- one slot: nothing else stores into the table

fn put(t: &mut [Sample], i: usize, s: Sample)
    requires { i < length t.old }
    ensures { t.new ≡ set t.old i s }
{
    t[i] = s;
}

fn clear(t: &mut [Sample], i: usize)
    requires { i < length t.old }
    ensures { t.new ≡ set t.old i empty_sample }
{
    t[i] = Sample::empty();
}

fn mark(t: &mut [Sample], i: usize)
    requires { i < length t.old }
    ensures { t.new ≡ set t.old i (marked_read (get_or t.old i empty_sample)) }
{
    t[i] = t[i].marked();
}

// ---- as the cache uses them: total

// The record in a slot, and the empty record past the end.
pub fn peek(t: &[Sample], i: usize) -> Sample
    ensures { result ≡ peek_at t.now i }
{
    t.get(i).copied().unwrap_or(Sample::empty())
}

// The slot gets the empty record back. A number past the end changes nothing.
pub fn free(t: &mut [Sample], i: usize)
    ensures { t.new ≡ set t.old i empty_sample }
{
    if i < t.len() {
        clear(t, i);
    }
}

// The slot gets this record. A number past the end changes nothing.
pub fn store(t: &mut [Sample], i: usize, s: Sample)
    ensures { t.new ≡ set t.old i s }
{
    if i < t.len() {
        put(t, i, s);
    }
}

// Room is made first: the record of the slot that is pushed out goes, and is the answer; then the other slot gets its record.
// Kept: `old` is 256 for none, as `swapped` has it: past the table nothing is emptied and the answer is the empty record.
pub fn swap(t: &mut [Sample], old: usize, slot: usize, s: Sample) -> Sample
    ensures value { result ≡ peek_at t.old old }
    ensures t_after { t.new ≡ swapped t.old old slot s }
{
    let out = peek(t, old);
    free(t, old);
    store(t, slot, s);
    out
}

// What a list does to a slot: a take empties it, a read marks its record. A number past the end changes nothing.
// Kept: `take` is the model's own Bool, as `touched` has it.
pub fn touch(t: &mut [Sample], i: usize, take: bool)
    ensures { t.new ≡ touched t.old i take }
{
    if i < t.len() {
        if take {
            clear(t, i);
        } else {
            mark(t, i);
        }
    }
}

// Every record of the table is the empty record, 256 of them where the table is as long as it must be. Slot by slot by
// `clear` and not by the library's `fill`: few functions touch the lent table.
pub fn fill(t: &mut [Sample])
    ensures { (t.new ≡ replicate (length t.old) empty_sample) × (length t.old ≡ 256 → t.new ≡ empty_table) }
{
    for i in 0..t.len() {
        clear(t, i);
    }
}

// ---- what a choice asks of each record, as numbers: sequence number, sample state, total

// Kept flat, three words a slot: the definition `gathered` has them so.
fn put_seen(out: &mut [u64; 768], i: usize, s: Sample)
    requires { i < 256 }
    ensures { out.new ≡ put_seen out.old i s }
{
    let at = 3 * i;
    out[at] = s.sequence_number;
    out[at + 1] = u64::from(s.sample_state().bit());
    out[at + 2] = s.total();
}

// Of each of 256 slots.
pub fn gather(t: &[Sample], out: &mut [u64; 768])
    ensures { out.new ≡ gathered 256 0 t.now out.old }
{
    for i in 0..256 {
        put_seen(out, i, peek(t, i));
    }
}
