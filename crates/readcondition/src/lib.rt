// readcondition.rs: which samples are to be read or taken.
#![tactic(auto)]

ghost use Rattle.std.specs.Prelude.{◌≡◌};
ghost use Rattle.sampleinfo.specs.States.{sample_bit, view_bit, instance_bit};
ghost use Rattle.readcondition.specs.Masks.{has, chosen_by, is_valid, condition_number, valid_number, any_condition, not_read};

use sampleinfo::{InstanceState, SampleState, State, ViewState};

// A mask of bits for each of a sample's three states.
#[derive(Clone, Copy, Debug, PartialEq, Eq)]
pub struct ReadCondition {
    pub sample_state_mask: u8,
    pub view_state_mask: u8,
    pub instance_state_mask: u8,
}

fn has_state<S: State>(mask: u8, state: S) -> bool
    ensures { result ≡ has mask (S.bit_of state) }
{
    mask & state.bit() != 0
}

impl ReadCondition {
    // Condition reads all available samples
    pub fn any() -> Self
        ensures { result ≡ any_condition }
    {
        ReadCondition {
            sample_state_mask: SampleState::any(),
            view_state_mask: ViewState::any(),
            instance_state_mask: InstanceState::any(),
        }
    }

    // Condition reads samples that are not already read
    pub fn not_read() -> Self
        ensures { result ≡ not_read }
    {
        ReadCondition {
            sample_state_mask: SampleState::NotRead.bit(),
            view_state_mask: ViewState::any(),
            instance_state_mask: InstanceState::any(),
        }
    }

    // No mask has a bit that stands for no state.
    #[tactic(auto, unfolding(crate::specs::Masks::is_valid))]
    pub fn is_valid(self) -> bool
        ensures { (result ≡ is_valid self) × (valid_number result ≡ condition_number self) }
    {
        self.sample_state_mask <= SampleState::any()
            && self.view_state_mask <= ViewState::any()
            && self.instance_state_mask <= InstanceState::any()
    }

    pub fn has_sample_state(self, s: SampleState) -> bool
        ensures { result ≡ has self.sample_state_mask (sample_bit s) }
    {
        has_state(self.sample_state_mask, s)
    }

    pub fn has_view_state(self, v: ViewState) -> bool
        ensures { result ≡ has self.view_state_mask (view_bit v) }
    {
        has_state(self.view_state_mask, v)
    }

    pub fn has_instance_state(self, i: InstanceState) -> bool
        ensures { result ≡ has self.instance_state_mask (instance_bit i) }
    {
        has_state(self.instance_state_mask, i)
    }

    // The sample is chosen: all three of its states are in the masks.
    #[tactic(auto, unfolding(crate::specs::Masks::chosen_by))]
    pub fn selects(self, s: SampleState, v: ViewState, i: InstanceState) -> bool
        ensures { result ≡ chosen_by self s v i }
    {
        self.has_sample_state(s) && self.has_view_state(v) && self.has_instance_state(i)
    }
}
