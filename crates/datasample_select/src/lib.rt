// datasample_cache.rs: select_keys_for_access and select_instance_keys_for_access over lent memory.
#![tactic(auto)]

ghost use Rattle.std.specs.Prelude.{◌≡◌, ◌/◌, length, OnErr};
ghost use Rattle.std.proofs.Math.Option.{some};
ghost use Rattle.model.specs.Model.{Model, Call, step};
ghost use Rattle.refine.specs.Good.{Good};
ghost use Rattle.memory.specs.Lies.{Lies};
ghost use Rattle.select.specs.Choice.{scope_of};
ghost use Rattle.select.specs.Told.{Told};
ghost use Rattle.datasample_select.specs.Choose.{Unfit, not_chosen};

use index::{Cache, Index};
use readcondition::ReadCondition;
use refusals::Refusal;
use sampleinfo::Sample;

// Three numbers of each record are gathered, and the choice is made on numbers. Choosing changes nothing but the lent buffer.
pub fn choose(
    x: &Index,
    t: &[Sample],
    within: Option<u64>,
    rc: ReadCondition,
    out: &mut [u64],
) -> Result<usize, Refusal>
    ensures told { (m : Model) → Good m → Lies m x.now.head x.now.words t.now → Told (step m (Call.choose (scope_of within) rc (length out.old / 2))).answer result out.old out.new }
    ensures value { Unfit t.now rc → (result ≡ not_chosen) × (out.new ≡ out.old) }
    ensures as_found { OnErr result (out.new ≡ out.old) }
{
    // the table is a lent slice by the rule, so its length is asked
    if t.len() != Cache::SLOTS {
        return Err(Refusal::Malformed);
    }
    let mut seen = [0; 768];
    samples::gather(t, &mut seen);
    select::select(x, &seen, within, rc, out)
}

// select_instance_keys_for_access: the same within one instance. Kept: both are the library's public calls.
pub fn choose_within(
    x: &Index,
    t: &[Sample],
    instance: u64,
    rc: ReadCondition,
    out: &mut [u64],
) -> Result<usize, Refusal>
    ensures told { (m : Model) → Good m → Lies m x.now.head x.now.words t.now → Told (step m (Call.choose (some instance) rc (length out.old / 2))).answer result out.old out.new }
    ensures value { Unfit t.now rc → (result ≡ not_chosen) × (out.new ≡ out.old) }
    ensures as_found { OnErr result (out.new ≡ out.old) }
{
    choose(x, t, Some(instance), rc, out)
}
