// The key rule, for the cache and for the topic cache.
#![tactic(auto)]

ghost use Rattle.std.specs.Prelude.{◌≡◌};
ghost use Rattle.keys.specs.Keys.{key_of, topic_last};

// The key of a sample that came at this time; none where no key is later than the last one issued.
#[tactic(auto, unfolding(crate::specs::Keys::key_of))]
pub fn next(last: Option<u64>, time: u64) -> Option<u64>
    ensures { result ≡ key_of last time }
{
    match last {
        None => Some(time),
        Some(last) if last < time => Some(time),
        Some(last) => last.checked_add(1),
    }
}

// Where a topic cache starts.
pub fn topic() -> Option<u64>
    ensures { result ≡ topic_last }
{
    Some(0)
}
