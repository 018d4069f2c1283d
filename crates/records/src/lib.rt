// The records of a session: a record's bytes, without its two length bytes, to a request.
#![tactic(auto)]

ghost use Rattle.std.specs.Prelude.{◌≡◌, [], ◌+◌, ◌*◌, ◌≤◌, length};
ghost use Rattle.records.specs.Format.{byte_at, number_at, twos, bytes_at, masks_at, instance_in, set_up_in, arrival_in, writer_in, count_in, list_size, sized_op, request_of, count_of, list_count, op_meant, call_meant, faulty, bad};
ghost use Rattle.records.specs.Words.{words_in, laid_in};
ghost use Rattle.records.specs.RequestLaws.{faulty_arrival};

use readcondition::ReadCondition;
use sampleinfo::Body;

// The fields of a set-up.
#[derive(Clone, Copy)]
pub struct SetUp {
    pub mode: u8,
    pub keep: i32,
    pub instances: u16,
}

// The fields of an add.
#[derive(Clone, Copy)]
pub struct Arrival {
    pub instance: u64,
    pub writer: [u8; 16],
    pub sequence_number: u64,
    pub time: u64,
    pub kind: u8,
    pub handle: u32,
}

// A list record gives its count here, and its pairs by pairs_of.
#[derive(Clone, Copy)]
pub enum Request {
    SetUp(SetUp),
    Add(Arrival),
    NoWriters(u64),
    Choose(ReadCondition),
    ChooseWithin(u64, ReadCondition),
    Read(u16),
    Take(u16),
    NextKey(u64),
}

// ---- the size of each record, operation byte and fields; a list's goes by its count

const SET_UP_SIZE: usize = 8;

const ADD_SIZE: usize = 46;

const NO_WRITERS_SIZE: usize = 9;

const CHOOSE_SIZE: usize = 4;

const CHOOSE_WITHIN_SIZE: usize = 12;

const NEXT_KEY_SIZE: usize = 9;

// where the pairs of a list start, and the size of one
const PAIRS_AT: usize = 3;

const PAIR_SIZE: usize = 16;

// ---- fields

// The byte i places behind place at; past the end, 0.
pub fn byte(rec: &[u8], at: usize, i: usize) -> u8
    ensures { result ≡ byte_at rec.now (at + i) }
{
    rec.get(at.saturating_add(i)).copied().unwrap_or(0)
}

// The N bytes from place at on. Not by `array::from_fn`: no fact ties its calls to what the closure holds.
fn bytes_at<const N: usize>(rec: &[u8], at: usize) -> [u8; N]
    ensures { result ≡ bytes_at N rec.now at }
{
    let mut bytes = [0; N];
    for (i, b) in bytes.iter_mut().enumerate() {
        *b = byte(rec, at, i);
    }
    bytes
}

pub fn u16_at(rec: &[u8], at: usize) -> u16
    ensures { result ≡ number_at 2 rec.now at }
{
    u16::from_be_bytes(bytes_at(rec, at))
}

pub fn u32_at(rec: &[u8], at: usize) -> u32
    ensures { result ≡ number_at 4 rec.now at }
{
    u32::from_be_bytes(bytes_at(rec, at))
}

pub fn u64_at(rec: &[u8], at: usize) -> u64
    ensures { result ≡ number_at 8 rec.now at }
{
    u64::from_be_bytes(bytes_at(rec, at))
}

pub fn i32_at(rec: &[u8], at: usize) -> i32
    ensures { result ≡ twos (number_at 4 rec.now at) }
{
    i32::from_be_bytes(bytes_at(rec, at))
}

// The 16 bytes of a writer.
pub fn writer_at(rec: &[u8], at: usize) -> [u8; 16]
    ensures { result ≡ bytes_at 16 rec.now at }
{
    bytes_at(rec, at)
}

fn masks(rec: &[u8], at: usize) -> ReadCondition
    ensures { result ≡ masks_at rec.now at }
{
    ReadCondition {
        sample_state_mask: byte(rec, at, 0),
        view_state_mask: byte(rec, at, 1),
        instance_state_mask: byte(rec, at, 2),
    }
}

// ---- what a record holds behind its operation byte

fn instance_in(rec: &[u8]) -> u64
    ensures { result ≡ instance_in rec.now }
{
    u64_at(rec, 1)
}

fn set_up_in(rec: &[u8]) -> SetUp
    ensures { result ≡ set_up_in rec.now }
{
    SetUp {
        mode: byte(rec, 1, 0),
        keep: i32_at(rec, 2),
        instances: u16_at(rec, 6),
    }
}

fn writer_in(rec: &[u8]) -> [u8; 16]
    ensures { result ≡ writer_in rec.now }
{
    writer_at(rec, 9)
}

fn arrival_in(rec: &[u8]) -> Arrival
    ensures { result ≡ arrival_in rec.now }
{
    Arrival {
        instance: instance_in(rec),
        writer: writer_in(rec),
        sequence_number: u64_at(rec, 25),
        time: u64_at(rec, 33),
        kind: byte(rec, 41, 0),
        handle: u32_at(rec, 42),
    }
}

fn count_in(rec: &[u8]) -> u16
    ensures { result ≡ count_in rec.now }
{
    u16_at(rec, 1)
}

// The size of a list of so many pairs.
fn list_size(count: u16) -> usize
    ensures { result ≡ list_size count }
{
    PAIRS_AT + PAIR_SIZE * usize::from(count)
}

// ---- the request

// A wrong length is malformed.
fn sized(size: usize, rec: &[u8], q: Request) -> Option<Request>
    ensures { result ≡ sized_op size rec.now q }
{
    (rec.len() == size).then_some(q)
}

// A record to a request; none where it is malformed.
#[tactic(auto, unfolding(crate::specs::Format::op_at))]
pub fn decode(rec: &[u8]) -> Option<Request>
    ensures { result ≡ request_of rec.now }
{
    let op = byte(rec, 0, 0);
    let count = count_in(rec);
    match op {
        0 => sized(SET_UP_SIZE, rec, Request::SetUp(set_up_in(rec))),
        1 => sized(ADD_SIZE, rec, Request::Add(arrival_in(rec))),
        2 => sized(NO_WRITERS_SIZE, rec, Request::NoWriters(instance_in(rec))),
        3 => sized(CHOOSE_SIZE, rec, Request::Choose(masks(rec, 1))),
        4 => sized(
            CHOOSE_WITHIN_SIZE,
            rec,
            Request::ChooseWithin(instance_in(rec), masks(rec, 9)),
        ),
        5 => sized(list_size(count), rec, Request::Read(count)),
        6 => sized(list_size(count), rec, Request::Take(count)),
        7 => sized(NEXT_KEY_SIZE, rec, Request::NextKey(instance_in(rec))),
        _ => None,
    }
}

// ---- pairs

// The count of a list record; 0 of any other.
fn count(q: Option<Request>) -> u16
    ensures { result ≡ count_of q }
{
    match q {
        Some(Request::Read(n) | Request::Take(n)) => n,
        _ => 0,
    }
}

// How many words its pairs are.
fn words(rec: &[u8]) -> usize
    ensures value { result ≡ 2 * list_count rec.now }
    ensures upper_bound { result ≤ 131070 }
{
    2 * usize::from(count(decode(rec)))
}

// The pairs of a list record go to the front of the lent words, a key and then its instance, and the answer is the number of words.
// Where they have no room, nothing is done.
pub fn pairs_of(rec: &[u8], out: &mut [u64]) -> usize
    ensures value { result ≡ length (words_in rec.now) }
    ensures out_after { out.new ≡ laid_in out.old (words_in rec.now) }
{
    let n = words(rec);
    if n <= out.len() {
        // By index: of `out[..n]` lent to `iter_mut` no fact says what `out` ends as.
        for i in 0..n {
            out[i] = u64_at(rec, PAIRS_AT + 8 * i);
        }
    }
    n
}

// ---- refusal 1

impl Arrival {
    // A kind or sequence number out of its bounds.
    #[tactic(auto, using(crate::specs::RequestLaws::arrival_faulty))]
    fn is_faulty(self) -> bool
        ensures { result ≡ faulty_arrival self }
    {
        Body::arrived(self.kind, self.handle, self.sequence_number).is_none()
    }
}

impl Request {
    // The longest record that two length bytes tell, and the words of its pairs if it is a list.
    pub const LONGEST: usize = 65535;

    pub const LIST_WORDS: usize = 2 * (Request::LONGEST / PAIR_SIZE);

    // A kind, sequence number or mask out of its bounds.
    fn is_faulty(self) -> bool
        ensures { result ≡ faulty (op_meant self []) }
    {
        match self {
            Request::Add(a) => a.is_faulty(),
            Request::Choose(c) | Request::ChooseWithin(_, c) => !c.is_valid(),
            _ => false,
        }
    }

    // The record is refused with 1, whatever came before it: malformed, or with a field out of its bounds.
    pub fn is_bad(q: Option<Request>) -> bool
        ensures { result ≡ bad (call_meant q []) }
    {
        q.is_none_or(Request::is_faulty)
    }
}
