// sampleinfo.rs: the states of a sample, its view and its instance, the generation counts, the records that hold them, and the lifecycle step.
#![tactic(auto)]

ghost use Rattle.std.specs.Prelude.{◌≡◌, ℕ, ◌<◌, eqb, bit_and, false, refl, ◌&&◌, leb, cond, Some, None};
ghost use Rattle.sampleinfo.specs.States.{sample_bit, sample_of_bit, view_bit, view_of_bit, instance_bit, instance_of_bit, kind_of, handle_of, made_by, body_of, body_number, kind_number, any_sample, any_view, any_instance, not_alive};
ghost use Rattle.sampleinfo.specs.Formed.{seq_fits, arrived_body};
ghost use Rattle.sampleinfo.specs.Counts.{zero, total, never, accessed_at};
ghost use Rattle.sampleinfo.specs.Lifecycle.{new_instance, is_reborn, counts_after, lifecycle_of, lifecycle_number, stepped_of, stepped_number, no_writers_of};
ghost use Rattle.sampleinfo.specs.declared.SampleState.TheVariants.{Read, NotRead};
ghost use Rattle.sampleinfo.specs.declared.ViewState.TheVariants.{New, NotNew};
ghost use Rattle.sampleinfo.specs.declared.InstanceState.TheVariants.{Alive, NotAliveDisposed, NotAliveNoWriters};
ghost use Rattle.sampleinfo.specs.Samples.{empty_sample, marked_read, sample_state_of, total_of};

#[derive(Clone, Copy, Debug, PartialEq, Eq)]
pub enum SampleState {
    Read,
    NotRead,
}

#[derive(Clone, Copy, Debug, PartialEq, Eq)]
pub enum ViewState {
    New,
    NotNew,
}

#[derive(Clone, Copy, Debug, PartialEq, Eq)]
pub enum InstanceState {
    Alive,
    NotAliveDisposed,
    NotAliveNoWriters,
}

// A double counter for counting how many times an instance has become Alive.
#[derive(Clone, Copy, Debug, Default, PartialEq, Eq)]
pub struct NotAliveGenerationCounts {
    pub disposed_generation_count: u32,
    pub no_writers_generation_count: u32,
}

// The handle of a value, or of a dispose.
#[derive(Clone, Copy, Debug, PartialEq, Eq)]
pub enum Body {
    Value(u32),
    Dispose(u32),
}

// What a slot of the sample table holds; its key and its instance stand in the index.
#[derive(Clone, Copy)]
pub struct Sample {
    // a snapshot of the instance's counts at the time this sample was received
    pub generation_counts: NotAliveGenerationCounts,
    pub writer_guid: [u8; 16],
    pub sequence_number: u64,
    pub sample_has_been_read: bool,
    pub body: Body,
}

// The instance record, which is lent to the lifecycle step.
#[derive(Clone, Copy, Debug, PartialEq, Eq)]
pub struct InstanceMetaData {
    pub instance_state: InstanceState,
    pub latest_generation_available: NotAliveGenerationCounts,
    // the last accessed total and 2, so that -2, never accessed, is 0
    pub last_generation_accessed: u64,
}

// The ranks that an info shows of its place in a list.
#[derive(Clone, Copy)]
pub struct Ranks {
    pub sample_rank: u64,
    pub generation_rank: i64,
    pub absolute_generation_rank: i64,
}

// SampleInfo: the printed fields, the writer and the sequence number.
#[derive(Clone, Copy)]
pub struct Info {
    pub body: Body,
    pub sample_state: SampleState,
    pub view_state: ViewState,
    pub instance_state: InstanceState,
    pub generation_counts: NotAliveGenerationCounts,
    pub sample_rank: u64,
    pub generation_rank: i64,
    pub absolute_generation_rank: i64,
    pub publication_handle: [u8; 16],
    pub sequence_number: u64,
}

// A state that the masks of a condition speak of: each has a bit of its own.
pub trait State: Copy {
    ghost bit_of: { Self → ℕ };

    ghost every_bit: { ℕ };

    // Set that contains all possible states
    fn any() -> u8
        ensures { result ≡ every_bit };

    fn bit(self) -> u8
        ensures { result ≡ bit_of self };

    // the set of all states has each of them
    ghost in_any: { (s : Self) → eqb (bit_and every_bit (bit_of s)) 0 ≡ false };
}

impl State for SampleState {
    ghost bit_of = { sample_bit };

    ghost every_bit = { any_sample };

    ghost in_any = { elim [ Read ↦ refl | NotRead ↦ refl ] };

    fn any() -> u8 {
        3
    }

    fn bit(self) -> u8 {
        match self {
            SampleState::Read => 1,
            SampleState::NotRead => 2,
        }
    }
}

impl State for ViewState {
    ghost bit_of = { view_bit };

    ghost every_bit = { any_view };

    ghost in_any = { elim [ New ↦ refl | NotNew ↦ refl ] };

    fn any() -> u8 {
        3
    }

    fn bit(self) -> u8 {
        match self {
            ViewState::New => 1,
            ViewState::NotNew => 2,
        }
    }
}

impl State for InstanceState {
    ghost bit_of = { instance_bit };

    ghost every_bit = { any_instance };

    ghost in_any = { elim [ Alive ↦ refl | NotAliveDisposed ↦ refl | NotAliveNoWriters ↦ refl ] };

    fn any() -> u8 {
        7
    }

    fn bit(self) -> u8 {
        match self {
            InstanceState::Alive => 1,
            InstanceState::NotAliveDisposed => 2,
            InstanceState::NotAliveNoWriters => 4,
        }
    }
}

impl InstanceState {
    // Set that contains both not_alive states.
    pub fn not_alive() -> u8
        ensures { result ≡ not_alive }
    {
        6
    }
}

// The state of a number that was kept in lent words: of any other number, NotRead.
impl From<u64> for SampleState {
    ghost from_gives = { λ bit s. s ≡ sample_of_bit bit };

    fn from(bit: u64) -> SampleState {
        match bit {
            1 => SampleState::Read,
            _ => SampleState::NotRead,
        }
    }
}

// Of any other number, NotNew.
impl From<u64> for ViewState {
    ghost from_gives = { λ bit v. v ≡ view_of_bit bit };

    fn from(bit: u64) -> ViewState {
        match bit {
            1 => ViewState::New,
            _ => ViewState::NotNew,
        }
    }
}

// Of any other number, Alive.
impl From<u64> for InstanceState {
    ghost from_gives = { λ bit s. s ≡ instance_of_bit bit };

    fn from(bit: u64) -> InstanceState {
        match bit {
            2 => InstanceState::NotAliveDisposed,
            4 => InstanceState::NotAliveNoWriters,
            _ => InstanceState::Alive,
        }
    }
}

impl NotAliveGenerationCounts {
    // Initial count value
    pub fn zero() -> Self
        ensures { result ≡ zero }
    {
        NotAliveGenerationCounts::default()
    }

    // Marker value for "never accessed"
    pub fn sub_zero() -> u64
        ensures { result ≡ never }
    {
        0
    }

    pub fn total(self) -> u64
        ensures { result ≡ total self }
    {
        u64::from(self.disposed_generation_count) + u64::from(self.no_writers_generation_count)
    }

    // What an instance keeps of these counts once they were accessed.
    pub fn accessed(self) -> u64
        ensures { result ≡ accessed_at (total self) }
    {
        self.total() + 2
    }

    // The nine pairs of old and new state; a rebirth from the greatest total is refused.
    fn after(self, old: InstanceState, new: InstanceState) -> Option<Self>
        ensures { result ≡ cond (is_reborn old new && leb 2147483647 (total self)) None (Some (counts_after old new self)) }
    {
        match (old, new) {
            // was Alive, does not change counts
            (InstanceState::Alive, _) => Some(self),
            // you can only die once
            (_, InstanceState::NotAliveDisposed | InstanceState::NotAliveNoWriters) => Some(self),
            // born again
            (_, InstanceState::Alive) if InstanceMetaData::MAX_TOTAL <= self.total() => None,
            (InstanceState::NotAliveDisposed, InstanceState::Alive) => {
                Some(NotAliveGenerationCounts {
                    disposed_generation_count: self.disposed_generation_count + 1,
                    ..self
                })
            }
            (InstanceState::NotAliveNoWriters, InstanceState::Alive) => {
                Some(NotAliveGenerationCounts {
                    no_writers_generation_count: self.no_writers_generation_count + 1,
                    ..self
                })
            }
        }
    }
}

// The range of sequence numbers, 1 to 2^63-1, for the cache and for the topic cache.
pub fn sequence_number_fits(n: u64) -> bool
    ensures { result ≡ seq_fits n }
{
    matches!(n, 1..=0x7FFF_FFFF_FFFF_FFFF)
}

impl Body {
    // The body of an add, or refusal 1: a sequence number out of range, or a kind that is neither.
    pub fn arrived(kind: u8, handle: u32, sequence_number: u64) -> Option<Body>
        ensures { result ≡ arrived_body kind handle sequence_number }
    {
        if sequence_number_fits(sequence_number) {
            Body::of(kind, handle)
        } else {
            None
        }
    }

    // 1 a value, 2 a dispose, anything else is refused with 1
    pub fn of(kind: u8, handle: u32) -> Option<Body>
        ensures { (result ≡ body_of kind handle) × (body_number result ≡ kind_number kind) }
    {
        match kind {
            1 => Some(Body::Value(handle)),
            2 => Some(Body::Dispose(handle)),
            _ => None,
        }
    }

    pub fn kind(self) -> u8
        ensures { result ≡ kind_of self }
    {
        match self {
            Body::Value(_) => 1,
            Body::Dispose(_) => 2,
        }
    }

    pub fn handle(self) -> u32
        ensures { result ≡ handle_of self }
    {
        match self {
            Body::Value(handle) | Body::Dispose(handle) => handle,
        }
    }

    // A value makes Alive, a dispose NotAliveDisposed. (No `From`: a body makes a state, and is not one in another form.)
    pub fn instance_state(self) -> InstanceState
        ensures { result ≡ made_by self }
    {
        match self {
            Body::Value(_) => InstanceState::Alive,
            Body::Dispose(_) => InstanceState::NotAliveDisposed,
        }
    }
}

impl Sample {
    // The empty record: all numbers 0, a value's body, unread. (Written out: no body is the default one.)
    pub fn empty() -> Self
        ensures { result ≡ empty_sample }
    {
        Sample {
            generation_counts: NotAliveGenerationCounts::zero(),
            writer_guid: [0; 16],
            sequence_number: 0,
            sample_has_been_read: false,
            body: Body::Value(0),
        }
    }

    // The same sample, read.
    pub fn marked(self) -> Self
        ensures { result ≡ marked_read self }
    {
        Sample {
            sample_has_been_read: true,
            ..self
        }
    }

    pub fn sample_state(self) -> SampleState
        ensures { result ≡ sample_state_of self }
    {
        if self.sample_has_been_read {
            SampleState::Read
        } else {
            SampleState::NotRead
        }
    }

    pub fn total(self) -> u64
        ensures { result ≡ total_of self }
    {
        self.generation_counts.total()
    }
}

// ---- the lifecycle

impl InstanceMetaData {
    // The greatest generation total.
    pub const MAX_TOTAL: u64 = 2_147_483_647;

    // A new instance takes the state of its first sample, counts 0 and 0.
    pub fn new(state: InstanceState) -> Self
        ensures { result ≡ new_instance state }
    {
        InstanceMetaData {
            instance_state: state,
            latest_generation_available: NotAliveGenerationCounts::zero(),
            last_generation_accessed: NotAliveGenerationCounts::sub_zero(),
        }
    }
}

// The step by value: the instance in its new state; what was accessed stays.
#[tactic(auto, using(crate::specs::LifecycleLaws::step_refused, crate::specs::LifecycleLaws::step_moved))]
fn step(imd: InstanceMetaData, new: InstanceState) -> Option<InstanceMetaData>
    ensures { result ≡ lifecycle_of imd new }
{
    let latest_generation_available = imd
        .latest_generation_available
        .after(imd.instance_state, new)?;
    Some(InstanceMetaData {
        instance_state: new,
        latest_generation_available,
        ..imd
    })
}

// The lifecycle step: the instance record is lent, and changed in place; where the step is refused, it stays as it was.
#[tactic(auto, using(crate::specs::LifecycleLaws::lent_after))]
pub fn update(imd: &mut InstanceMetaData, new: InstanceState)
    ensures { imd.new ≡ stepped_of imd.old new }
{
    *imd = step(*imd, new).unwrap_or(*imd);
}

// The lent step on a record of one's own.
fn after_update(mut imd: InstanceMetaData, new: InstanceState) -> InstanceMetaData
    ensures { result ≡ stepped_of imd new }
{
    update(&mut imd, new);
    imd
}

// The lifecycle step for every other caller, by value.
#[tactic(auto, using(crate::specs::LifecycleLaws::now_is, crate::specs::LifecycleLaws::step_told))]
pub fn lifecycle(imd: InstanceMetaData, new: InstanceState) -> Option<InstanceMetaData>
    ensures { (result ≡ lifecycle_of imd new) × (stepped_number result ≡ lifecycle_number imd new) }
{
    step(imd, new)?;
    Some(after_update(imd, new))
}

// The no-writers event: it makes no sample.
#[tactic(auto, unfolding(crate::specs::Lifecycle::stepped_of))]
pub fn no_writers(imd: InstanceMetaData) -> InstanceMetaData
    ensures { result ≡ no_writers_of imd }
{
    match imd.instance_state {
        InstanceState::Alive => after_update(imd, InstanceState::NotAliveNoWriters),
        // you can only die once
        InstanceState::NotAliveDisposed | InstanceState::NotAliveNoWriters => imd,
    }
}
