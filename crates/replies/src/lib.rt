// The values of a session: what it holds, a call's outcome as the reply to a record, and what is refused before the cache is asked.
#![tactic(auto)]

ghost use Rattle.std.specs.Prelude.{◌≡◌, min, length, take, is_some};
ghost use Rattle.replies.specs.Steps.{session_after, set_up_done, add_done, event_done, choose_done, list_done, is_set_up, admitted_by};

use answers::Reply;
use datasample_cache::Added;
use index::Index;
use records::Request;
use refusals::Refusal;

// What a session holds beside the lent table: the index of the cache that was set up, if one was.
#[derive(Clone, Copy)]
pub struct Session {
    pub index: Option<Index>,
}

impl Session {
    // What a set-up comes to: an accepted one begins a cache, and a refused one leaves the session as it is.
    pub fn set_up_done(&mut self, r: Result<Index, Refusal>) -> Result<Reply, Refusal>
        ensures value { result ≡ set_up_done r }
        ensures session { self.new ≡ session_after self.old r }
    {
        self.index = Some(r?);
        Ok(Reply::Ok)
    }
}

// ---- what each other call comes to

pub fn add_done(r: Result<Added, Refusal>) -> Result<Reply, Refusal>
    ensures { result ≡ add_done r }
{
    r.map(|a| Reply::Added {
        key: a.key,
        slot: a.slot as u64,
        evicted: a.evicted.map(u64::from),
    })
}

pub fn event_done(r: Result<(), Refusal>) -> Result<Reply, Refusal>
    ensures { result ≡ event_done r }
{
    r.map(|_| Reply::Ok)
}

pub fn choose_done(r: Result<usize, Refusal>) -> Result<Reply, Refusal>
    ensures { result ≡ choose_done r }
{
    r.map(Reply::Selected)
}

pub fn list_done(r: Result<usize, Refusal>) -> Result<Reply, Refusal>
    ensures { result ≡ list_done r }
{
    r.map(Reply::Infos)
}

// The words that a list record asked for: no record has more than the lent list.
pub fn asked(list: &[u64], n: usize) -> &[u64]
    ensures { result.now ≡ take (min n (length list.now)) list.now }
{
    &list[..n.min(list.len())]
}

// ---- before the cache is asked

fn is_set_up(q: Option<Request>) -> bool
    ensures { result ≡ is_set_up q }
{
    matches!(q, Some(Request::SetUp(_)))
}

// The request of a record that is in its place. Refusal 1, then 10: another record before an accepted set-up, or a set-up after one.
#[tactic(auto, unfolding(crate::specs::Steps::admitted_by))]
pub fn admitted(s: &Session, q: Option<Request>) -> Result<Request, Refusal>
    ensures { result ≡ admitted_by (is_some s.now.index) q }
{
    if Request::is_bad(q) {
        return Err(Refusal::Malformed);
    }
    if is_set_up(q) == s.index.is_some() {
        return Err(Refusal::OutOfTurn);
    }
    q.ok_or(Refusal::Malformed)
}
