// dds_cache.rs, the best-effort half of TopicCache: keep limits, adding, removal by count and the range.
// The changes lie in lent words (crate changes); the cache itself is a small header that goes in and comes back.
#![tactic(auto)]

ghost use Rattle.std.specs.Prelude.{◌≡◌, List, [], ◌∷◌, ◌++◌, ◌≤◌, ◌<◌, length, drop};
ghost use Rattle.model.specs.Topic.{Entry, in_bounds, wider, defaults, may_for, removal, collect_every};
ghost use Rattle.changes.specs.Places.{Holds, words_of, entry_of};
ghost use Rattle.dds_cache.specs.Header.{depth_of, limits_of, given, Limiting, Creating, Updates, Adds, Removes, Ranges, drops_for, without, behind, inserted, Inner};

use changes::CacheChange;
use refusals::Refusal;

// KeepAll stands above every depth.
#[derive(Clone, Copy, PartialEq, Eq, PartialOrd, Ord)]
pub enum History {
    KeepLast(u32),
    KeepAll,
}

// How many changes are kept at least, and at most.
#[derive(Clone, Copy)]
pub struct KeepLimits {
    pub min_keep_samples: History,
    pub max_keep_samples: u32,
}

#[derive(Clone, Copy)]
pub struct TopicCache {
    pub limits: KeepLimits,
    // the largest key ever issued
    pub last_added_instant: Option<u64>,
    pub held: usize,
}

// The key of the new change, or "held already": the change is not added, and the collection before it stands.
#[derive(Clone, Copy)]
pub enum Added {
    Key(u64),
    HeldAlready,
}

#[derive(Clone, Copy)]
pub struct Outcome {
    pub cache: TopicCache,
    pub answer: Added,
}

impl Default for KeepLimits {
    ghost is_default = { λ l. limits_of l ≡ defaults };

    fn default() -> KeepLimits {
        KeepLimits {
            min_keep_samples: History::KeepLast(KeepLimits::DEFAULT_DEPTH),
            max_keep_samples: KeepLimits::DEFAULT_SAMPLES,
        }
    }
}

impl KeepLimits {
    pub const PLACES: usize = CacheChange::PLACES;

    // the greatest depth, and the greatest max_samples
    pub const DEPTH: u32 = 256;

    pub const DEFAULT_DEPTH: u32 = 1;

    pub const DEFAULT_SAMPLES: u32 = 64;

    fn in_bounds(n: u32) -> bool
        ensures { result ≡ in_bounds n }
    {
        (1..=KeepLimits::DEPTH).contains(&n)
    }

    // If a definite minimum is specified, max_samples is at least that.
    #[tactic(auto, unfolding(crate::specs::Header::new_limits, model::specs::Topic::limits_fit))]
    pub fn new(history: History, max_samples: u32) -> Result<KeepLimits, Refusal>
        ensures { Limiting (given history max_samples) result }
    {
        if !KeepLimits::in_bounds(max_samples) {
            return Err(Refusal::OutOfBounds);
        }
        match history {
            History::KeepAll => Ok(KeepLimits {
                min_keep_samples: history,
                max_keep_samples: max_samples,
            }),
            History::KeepLast(depth) if KeepLimits::in_bounds(depth) => Ok(KeepLimits {
                min_keep_samples: history,
                max_keep_samples: depth.max(max_samples),
            }),
            History::KeepLast(_) => Err(Refusal::OutOfBounds),
        }
    }

    // This will only ever increase.
    fn raise(self, other: KeepLimits) -> KeepLimits
        ensures { limits_of result ≡ wider (limits_of self) (limits_of other) }
    {
        KeepLimits {
            min_keep_samples: self.min_keep_samples.max(other.min_keep_samples),
            max_keep_samples: self.max_keep_samples.max(other.max_keep_samples),
        }
    }
}

// Garbage collect more often when samples are large. A match over the payload ranges, by the rule.
#[tactic(auto, using(crate::specs::LimitLaws::every))]
fn modulus(payload_size: u32) -> u64
    ensures { result ≡ collect_every payload_size }
{
    match payload_size {
        0..=1024 => 64,
        1025..=65536 => 8,
        _ => 1,
    }
}

// One place further; there are no more than 384. Not `min`: a number that no call makes stays as it is, as `behind` says.
fn behind_last(at: usize) -> usize
    ensures { result ≡ behind at }
{
    if at < KeepLimits::PLACES { at + 1 } else { at }
}

fn may_remove(history: History, must: usize, held: usize) -> usize
    ensures { result ≡ may_for (depth_of history) must held }
{
    match history {
        History::KeepAll => must,
        History::KeepLast(depth) => must.max(held.saturating_sub(depth as usize)),
    }
}

impl TopicCache {
    // Limits outside their bounds leave the words as they are.
    pub fn new(
        history: History,
        max_samples: u32,
        words: &mut [u64; CacheChange::TABLE],
    ) -> Result<TopicCache, Refusal>
        ensures { Creating (given history max_samples) result words.old words.new }
    {
        let limits = KeepLimits::new(history, max_samples)?;
        changes::clear_all(words);
        Ok(TopicCache {
            limits,
            last_added_instant: keys::topic(),
            held: 0,
        })
    }

    // A refusal hands out no cache: the caller's stands.
    pub fn update_keep_limits(
        self,
        history: History,
        max_samples: u32,
    ) -> Result<TopicCache, Refusal>
        ensures { Updates (given history max_samples) self result }
    {
        let other = KeepLimits::new(history, max_samples)?;
        Ok(TopicCache {
            limits: self.limits.raise(other),
            ..self
        })
    }

    // How many changes a removal before this time drops.
    fn remove_count(self, words: &[u64; CacheChange::TABLE], remove_before: u64) -> usize
        ensures { (result ≤ self.held) × ((es : List Entry) → Holds es self.held words.now → result ≡ removal (limits_of self.limits) remove_before es) }
    {
        // We must remove at least enough to stay within max limit.
        let must = self
            .held
            .saturating_sub(self.limits.max_keep_samples as usize);
        let may = may_remove(self.limits.min_keep_samples, must, self.held);
        let below = changes::count_below(words, self.held, remove_before);
        must.max(may.min(below))
    }

    // The cache without its oldest n.
    fn without(self, words: &mut [u64; CacheChange::TABLE], n: usize) -> TopicCache
        requires { n ≤ self.held }
        ensures { (result ≡ without self n) × ((es : List Entry) → Holds es self.held words.old → words.new ≡ words_of (drop n es)) }
    {
        changes::drop_oldest(words, self.held, n);
        TopicCache {
            held: self.held - n,
            ..self
        }
    }

    // Remove changes before the given time, but keep at least `min_keep_samples`, and at most `max_keep_samples`.
    pub fn remove_changes_before(
        self,
        words: &mut [u64; CacheChange::TABLE],
        remove_before: u64,
    ) -> TopicCache
        ensures { Removes remove_before self words.old result words.new }
    {
        let n = self.remove_count(words, remove_before);
        self.without(words, n)
    }

    // How many changes the collection before an add drops: none if there is no collection.
    #[tactic(auto, using(crate::specs::LimitLaws::drops))]
    fn collect_count(self, words: &[u64; CacheChange::TABLE], sn: u64, payload_size: u32) -> usize
        ensures { (result ≤ self.held) × ((es : List Entry) → Holds es self.held words.now → result ≡ drops_for (limits_of self.limits) es sn payload_size) }
    {
        let modulus = modulus(payload_size);
        if sn % modulus == 0 || KeepLimits::PLACES <= self.held {
            self.remove_count(words, 0)
        } else {
            0
        }
    }

    fn insert(
        self,
        words: &mut [u64; CacheChange::TABLE],
        n: usize,
        key: u64,
        cc: CacheChange,
    ) -> TopicCache
        requires { n ≤ self.held }
        ensures { (result ≡ inserted self n key) × ((es : List Entry) → Holds es self.held words.old → length (drop n es) < 384 → words.new ≡ words_of (drop n es ++ (entry_of cc key ∷ []))) }
    {
        let cache = self.without(words, n);
        changes::insert(words, cache.held, key, cc);
        TopicCache {
            last_added_instant: Some(key),
            held: behind_last(cache.held),
            ..cache
        }
    }

    fn add_change_internal(
        self,
        words: &mut [u64; CacheChange::TABLE],
        instant: u64,
        cc: CacheChange,
    ) -> Result<Outcome, Refusal>
        ensures { Inner instant cc self words.old result words.new }
    {
        // First, do garbage collection: here only how many it drops, so that a refusal can leave all as it was.
        let n = self.collect_count(words, cc.sequence_number, cc.payload_size);
        if changes::find_by_sn(words, n, self.held, cc) {
            // Got duplicate DATA for a SN that we already have.
            return Ok(Outcome {
                cache: self.without(words, n),
                answer: Added::HeldAlready,
            });
        }
        let key = keys::next(self.last_added_instant, instant).ok_or(Refusal::NoLaterKey)?;
        Ok(Outcome {
            cache: self.insert(words, n, key, cc),
            answer: Added::Key(key),
        })
    }

    // A refusal hands out no cache: the caller's stands, and the words are as they were.
    pub fn add_change(
        self,
        words: &mut [u64; CacheChange::TABLE],
        instant: u64,
        cache_change: CacheChange,
    ) -> Result<Outcome, Refusal>
        ensures { Adds instant cache_change self words.old result words.new }
    {
        if !sampleinfo::sequence_number_fits(cache_change.sequence_number) {
            return Err(Refusal::Malformed);
        }
        self.add_change_internal(words, instant, cache_change)
    }

    // The changes with keys above start and up to end, six words each: how many there are.
    pub fn get_changes_in_range_best_effort(
        self,
        words: &[u64; CacheChange::TABLE],
        start_instant: u64,
        end_instant: u64,
        out: &mut [u64],
    ) -> Result<usize, Refusal>
        ensures { Ranges start_instant end_instant self words.now result out.old out.new }
    {
        let n = changes::count_in_range(words, self.held, start_instant, end_instant);
        if out.len() / CacheChange::WORDS < n {
            return Err(Refusal::NoRoom);
        }
        changes::copy_in_range(words, self.held, start_instant, end_instant, out);
        Ok(n)
    }
}
