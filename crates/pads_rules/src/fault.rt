ghost use Rattle.std.specs.Prelude.{◌≡◌, ◌+◌, Some};
ghost use Rattle.pads_rules.specs.Faults as faults;
ghost use Rattle.pads_rules.specs.Faults.{breaks, when, least};

use crate::Rule;

/// A violation of a rule.
#[derive(Clone, Copy, Debug, PartialEq, Eq)]
pub struct CheckFault {
    /// The offset of the byte where the token begins that breaks the rule.
    pub at: u64,
    /// The rule that is broken.
    pub rule: Rule,
}

/// Whether the first of two violations is told before the second: by place, then by the rule's number.
fn is_before(first: CheckFault, second: CheckFault) -> bool
    ensures order { result ≡ faults.is_before first second }
{
    let lower = first.rule.number() < second.rule.number();
    first.at < second.at || first.at == second.at && lower
}

/// The one of two violations that is told first, where there are any.
#[tactic(auto, unfolding(crate::specs::Faults::lesser))]
pub fn lesser(first: Option<CheckFault>, second: Option<CheckFault>) -> Option<CheckFault>
    ensures least { result ≡ faults.lesser first second }
{
    match (first, second) {
        (None, other) => other,
        (other, None) => other,
        (Some(first), Some(second)) => {
            if is_before(second, first) {
                Some(second)
            } else {
                Some(first)
            }
        }
    }
}

/// A violation of the rule at the place where the test holds.
#[tactic(auto, unfolding(crate::specs::Faults::lesser))]
pub fn fault_if(holds: bool, rule: Rule, at: u64) -> Option<CheckFault>
    ensures least { result ≡ least (when holds (breaks rule at)) }
{
    if holds {
        Some(CheckFault { at, rule })
    } else {
        None
    }
}
