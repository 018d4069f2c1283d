// The records of a program over the topic cache (oracle/src/topic/format.rs): a record's bytes, without its two length bytes, to what it
// asks for; and a writer as digits.
#![tactic(auto)]

ghost use Rattle.std.specs.Prelude.{◌≡◌, Ok};
ghost use Rattle.topic_records.specs.Format.{hex_text, change_in, history_asked, most_asked, history_in, most_in, tags_fit, op_in, sized_op, limits_op, sequence_in, add_op, code_of, refusal_for};

use changes::CacheChange;
use dds_cache::{History, KeepLimits};
use refusals::Refusal;

// What a record asks for. A kind alone, its fields are read beside it: `op_in` of the definitions gives no fields, and may not change.
#[derive(Clone, Copy)]
pub enum Op {
    New,
    Update,
    Add,
    RemoveBefore,
    Range,
}

// ---- the size of each record, operation byte and fields

const LIMITS_SIZE: usize = 11;

const ADD_SIZE: usize = 41;

const REMOVE_SIZE: usize = 9;

const RANGE_SIZE: usize = 17;

// ---- the operation

// Whether the bytes that name a keep and the presence of max_samples name one.
#[tactic(auto, unfolding(crate::specs::Format::tags_fit))]
fn tags_fit(rec: &[u8]) -> bool
    ensures { result ≡ tags_fit rec.now }
{
    records::byte(rec, 1, 0) <= 2 && records::byte(rec, 6, 0) <= 1
}

// A wrong length is malformed. A twin of records' sized but for its answer: that one's specs name an Option of its own request.
#[tactic(auto, unfolding(crate::specs::Format::sized_op))]
fn sized(size: usize, wanted: usize, op: Op) -> Result<Op, Refusal>
    ensures { result ≡ sized_op wanted size op }
{
    if size == wanted {
        Ok(op)
    } else {
        Err(Refusal::Malformed)
    }
}

// A new or an update, if its limits can be read.
#[tactic(auto, unfolding(crate::specs::Format::limits_op))]
fn with_limits(rec: &[u8], op: Op) -> Result<Op, Refusal>
    ensures { result ≡ limits_op rec.now op }
{
    if !tags_fit(rec) {
        return Err(Refusal::Malformed);
    }
    sized(rec.len(), LIMITS_SIZE, op)
}

fn sequence_in(rec: &[u8]) -> u64
    ensures { result ≡ sequence_in rec.now }
{
    records::u64_at(rec, 17)
}

// An add, if its sequence number is in range.
#[tactic(auto, unfolding(crate::specs::Format::add_op))]
fn with_sequence(rec: &[u8]) -> Result<Op, Refusal>
    ensures { result ≡ add_op rec.now }
{
    if !sampleinfo::sequence_number_fits(sequence_in(rec)) {
        return Err(Refusal::Malformed);
    }
    sized(rec.len(), ADD_SIZE, Op::Add)
}

// Malformed is all that is refused with 1: that comes first everywhere.
#[tactic(auto, unfolding(crate::specs::Format::op_at))]
pub fn op_of(rec: &[u8]) -> Result<Op, Refusal>
    ensures { result ≡ op_in rec.now }
{
    match records::byte(rec, 0, 0) {
        0 => with_limits(rec, Op::New),
        1 => with_limits(rec, Op::Update),
        2 => with_sequence(rec),
        3 => sized(rec.len(), REMOVE_SIZE, Op::RemoveBefore),
        4 => sized(rec.len(), RANGE_SIZE, Op::Range),
        _ => Err(Refusal::Malformed),
    }
}

// ---- limits: 0 the default, 1 the last so many, 2 all

// The history asked for.
#[tactic(auto, unfolding(crate::specs::Format::history_asked))]
fn history_of(keep: u8, depth: u32) -> History
    ensures { result ≡ history_asked keep depth }
{
    match keep {
        0 => History::KeepLast(KeepLimits::DEFAULT_DEPTH),
        1 => History::KeepLast(depth),
        _ => History::KeepAll,
    }
}

// A negative number reads as one far above the bound, and is refused as such.
#[tactic(auto, unfolding(crate::specs::Format::most_asked))]
fn most_of(given: u8, most: u32) -> u32
    ensures { result ≡ most_asked given most }
{
    match given {
        0 => KeepLimits::DEFAULT_SAMPLES,
        _ => most,
    }
}

pub fn history_in(rec: &[u8]) -> History
    ensures { result ≡ history_in rec.now }
{
    history_of(records::byte(rec, 1, 0), records::u32_at(rec, 2))
}

pub fn most_in(rec: &[u8]) -> u32
    ensures { result ≡ most_in rec.now }
{
    most_of(records::byte(rec, 6, 0), records::u32_at(rec, 7))
}

// ---- an add

pub fn change_of(rec: &[u8]) -> CacheChange
    ensures { result ≡ change_in rec.now }
{
    CacheChange {
        writer_guid: records::writer_at(rec, 1),
        sequence_number: sequence_in(rec),
        handle: records::u32_at(rec, 25),
        payload_size: records::u32_at(rec, 29),
    }
}

// ---- refusals

impl Op {
    // What refuses a record that is not malformed before the cache is asked: all but a new wait for a cache.
    pub fn refusal(self, ready: bool) -> Result<(), Refusal>
        ensures { code_of result ≡ refusal_for (Ok self) ready }
    {
        match self {
            Op::New => Ok(()),
            _ if ready => Ok(()),
            _ => Err(Refusal::OutOfTurn),
        }
    }
}

// ---- a writer as digits

// The writer as 32 digits, two for each byte.
pub fn writer_text(writer: [u8; 16]) -> [u8; 32]
    ensures { result ≡ hex_text writer }
{
    let mut text = [0; 32];
    // The text has two places for each byte, so this is no error.
    let _ = hex::encode_to_slice(&writer, &mut text);
    text
}
