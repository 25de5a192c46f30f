// The board's rules as definitions (in specs/), the types of a decision, and the worked states.
#![tactic(auto)]

ghost use Rattle.std.specs.Prelude.{◌≡◌};
ghost use Rattle.rules.specs.Schedules.{FurtherStates};
ghost use Rattle.rules.specs.Worked.{WorkedStates};

pub mod decision;

// How many facts are worked out. That they hold of the rules is what the contract says; with all rules
// opened, they compute.
#[tactic(auto, unfolding(crate::specs::Machine::machine))]
pub fn worked_states() -> usize
    ensures number { result ≡ 28 }
    ensures worked { WorkedStates }
    ensures further { FurtherStates }
{
    14 + 14
}
