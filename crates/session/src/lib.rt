// A session: a record is answered by the cache that stands, and its lines are laid into a lent buffer.
#![tactic(auto)]

ghost use Rattle.std.specs.Prelude.{◌≡◌, List, ℕ, ◌<◌, length};
ghost use Rattle.std.proofs.Math.Option.{Option};
ghost use Rattle.model.specs.Model as model;
ghost use Rattle.model.specs.Model.{Model};
ghost use Rattle.model.specs.Pairs.{Pair};
ghost use Rattle.records.specs.Format.{too_long, list_pairs, set_up_meant, arrival_meant, op_meant, buffer};
ghost use Rattle.sampleinfo.specs.declared.Sample.{Sample};
ghost use Rattle.answers.specs.Says.{numbered};
ghost use Rattle.replies.specs.Steps.{starting, session_of};
ghost use Rattle.session.specs.Session.{answering};
ghost use Rattle.session.specs.Stands.{Stands, Answers, Turns, Responded};

use answers::Reply;
use index::Index;
use readcondition::ReadCondition;
use records::Request;
use refusals::Refusal;
use replies::Session;
use sampleinfo::Sample;

// ---- set-up

fn do_set_up(s: &mut Session, t: &mut [Sample], u: records::SetUp) -> Result<Reply, Refusal>
    ensures { (ps is : List ℕ) → Stands Option.none s.old t.old → Answers (answering Option.none (model.set_up (set_up_meant u))) s.old t.old ps is result s.new t.new ps is }
{
    s.set_up_done(datasample_cache::set_up(t, u.mode, u.keep, u.instances))
}

// ---- adding

fn do_add(x: &mut Index, t: &mut [Sample], a: records::Arrival) -> Result<Reply, Refusal>
    ensures { (m : Model) (ps is : List ℕ) → Stands (Option.some m) (session_of (Some x.old)) t.old → Answers (answering (Option.some m) (model.add (arrival_meant a))) (session_of (Some x.old)) t.old ps is result (session_of (Some x.new)) t.new ps is }
{
    let r = datasample_cache::add(
        x,
        t,
        a.instance,
        a.writer,
        a.sequence_number,
        a.time,
        a.kind,
        a.handle,
    );
    replies::add_done(r)
}

// ---- choosing

// Over all instances.
fn do_choose(
    x: &Index,
    t: &[Sample],
    rc: ReadCondition,
    pairs: &mut [u64; Reply::PAIRS_SIZE],
) -> Result<Reply, Refusal>
    ensures { (m : Model) (is : List ℕ) → Stands (Option.some m) (session_of (Some x.now)) t.now → Answers (answering (Option.some m) (model.choose Option.none rc buffer)) (session_of (Some x.now)) t.now pairs.old is result (session_of (Some x.now)) t.now pairs.new is }
{
    replies::choose_done(datasample_select::choose(x, t, None, rc, pairs))
}

// Within the one named: the library's call of that name.
fn do_choose_within(
    x: &Index,
    t: &[Sample],
    instance: u64,
    rc: ReadCondition,
    pairs: &mut [u64; Reply::PAIRS_SIZE],
) -> Result<Reply, Refusal>
    ensures { (m : Model) (is : List ℕ) → Stands (Option.some m) (session_of (Some x.now)) t.now → Answers (answering (Option.some m) (model.choose (Option.some instance) rc buffer)) (session_of (Some x.now)) t.now pairs.old is result (session_of (Some x.now)) t.now pairs.new is }
{
    replies::choose_done(datasample_select::choose_within(x, t, instance, rc, pairs))
}

// ---- reading and taking

// The two calls differ in the function alone; it is not passed in, since the contract of a bound over five lent arguments would say what theirs say again.
fn do_list(
    x: &mut Index,
    t: &mut [Sample],
    rec: &[u8],
    take: bool,
    infos: &mut [u64; Reply::INFOS_SIZE],
) -> Result<Reply, Refusal>
    ensures { (m : Model) (ps : List ℕ) → length rec.now < too_long → Stands (Option.some m) (session_of (Some x.old)) t.old → Answers (answering (Option.some m) (model.read_or_take take (list_pairs rec.now) buffer)) (session_of (Some x.old)) t.old ps infos.old result (session_of (Some x.new)) t.new ps infos.new }
{
    let mut words = [0u64; Request::LIST_WORDS];
    let n = records::pairs_of(rec, &mut words);
    let list = replies::asked(&words, n);
    if take {
        return replies::list_done(datasample_access::take_by_keys(x, t, list, infos));
    }
    replies::list_done(datasample_access::read_by_keys(x, t, list, infos))
}

// ---- the no-writers event, and the next key

fn do_no_writers(x: &mut Index, instance: u64) -> Result<Reply, Refusal>
    ensures { (m : Model) (t : List Sample) (ps is : List ℕ) → Stands (Option.some m) (session_of (Some x.old)) t → Answers (answering (Option.some m) (model.no_writers instance)) (session_of (Some x.old)) t ps is result (session_of (Some x.new)) t ps is }
{
    replies::event_done(datasample_cache::no_writers(x, instance))
}

fn do_next_key(x: &Index, instance: u64) -> Reply
    ensures { (m : Model) (t : List Sample) (ps is : List ℕ) → Stands (Option.some m) (session_of (Some x.now)) t → Answers (answering (Option.some m) (model.next_key instance)) (session_of (Some x.now)) t ps is (Ok result) (session_of (Some x.now)) t ps is }
{
    Reply::Next(datasample_cache::next_key(x, instance))
}

// ---- a record

// Before an accepted set-up.
fn begin(s: &mut Session, t: &mut [Sample], q: Request) -> Result<Reply, Refusal>
    ensures { (qs : List Pair) (ps is : List ℕ) → Stands Option.none s.old t.old → Answers (answering Option.none (op_meant q qs)) s.old t.old ps is result s.new t.new ps is }
{
    match q {
        Request::SetUp(u) => do_set_up(s, t, u),
        _ => Err(Refusal::OutOfTurn),
    }
}

// After one.
fn ask(
    x: &mut Index,
    t: &mut [Sample],
    rec: &[u8],
    q: Request,
    pairs: &mut [u64; Reply::PAIRS_SIZE],
    infos: &mut [u64; Reply::INFOS_SIZE],
) -> Result<Reply, Refusal>
    ensures { (m : Model) → length rec.now < too_long → Stands (Option.some m) (session_of (Some x.old)) t.old → Answers (answering (Option.some m) (op_meant q (list_pairs rec.now))) (session_of (Some x.old)) t.old pairs.old infos.old result (session_of (Some x.new)) t.new pairs.new infos.new }
{
    match q {
        Request::SetUp(_) => Err(Refusal::OutOfTurn),
        Request::Add(a) => do_add(x, t, a),
        Request::NoWriters(i) => do_no_writers(x, i),
        Request::Choose(c) => do_choose(x, t, c, pairs),
        Request::ChooseWithin(i, c) => do_choose_within(x, t, i, c, pairs),
        Request::Read(_) => do_list(x, t, rec, false, infos),
        Request::Take(_) => do_list(x, t, rec, true, infos),
        Request::NextKey(i) => Ok(do_next_key(x, i)),
    }
}

fn answer(
    s: &mut Session,
    t: &mut [Sample],
    rec: &[u8],
    pairs: &mut [u64; Reply::PAIRS_SIZE],
    infos: &mut [u64; Reply::INFOS_SIZE],
) -> Result<Reply, Refusal>
    ensures { Turns rec.now s.old t.old pairs.old infos.old result s.new t.new pairs.new infos.new }
{
    let q = replies::admitted(s, records::decode(rec))?;
    match &mut s.index {
        None => begin(s, t, q),
        Some(x) => ask(x, t, rec, q, pairs, infos),
    }
}

// A refusal by its number, which is what is printed of it.
fn numbered(r: Result<Reply, Refusal>) -> Result<Reply, u64>
    ensures { result ≡ numbered r }
{
    r.map_err(|why| why.number())
}

// A record, without its two length bytes, is answered: its lines stand at the front of `line`, the pairs and infos that they print at the front of `pairs`
// and `infos`. The answer is how many bytes of `line` they are.
pub fn respond(
    s: &mut Session,
    t: &mut [Sample],
    rec: &[u8],
    pairs: &mut [u64; Reply::PAIRS_SIZE],
    infos: &mut [u64; Reply::INFOS_SIZE],
    line: &mut [u8; Reply::LINES_SIZE],
) -> usize
    ensures { Responded rec.now s.old t.old pairs.old infos.old line.old result s.new t.new pairs.new infos.new line.new }
{
    let r = answer(s, t, rec, pairs, infos);
    answers::print(numbered(r), pairs, infos, line)
}

// Before the first record.
pub fn start() -> Session
    ensures { result ≡ starting }
{
    Session { index: None }
}
