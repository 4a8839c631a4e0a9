ghost use Rattle.std.specs.Prelude.{◌≡◌, None};
ghost use Rattle.pads_judge.specs.Judgements as judgements;
ghost use Rattle.pads_judge.specs.Judgements.{settle};

use pads_rules::{CheckFault, ExprSort, Rule, fault_if, lesser};

/// What is known of an expression.
#[derive(Clone, Copy, Debug, PartialEq, Eq)]
pub struct Judgement {
    /// The place of its first token.
    pub first: u64,
    /// The height of its tree; 257 stands for every greater one.
    pub height: u64,
    /// Its sort; unknown where it holds a violation.
    pub sort: ExprSort,
    /// The least violation that it holds.
    pub fault: Option<CheckFault>,
}

/// The height of a tree one node above another.
pub(crate) fn above(height: u64) -> u64
    ensures above { result ≡ judgements.above height }
{
    if height < 257 { height + 1 } else { 257 }
}

/// An expression, by the least of the violations of its parts and its form.
#[tactic(auto, unfolding(crate::specs::Judgements::settle))]
pub(crate) fn settled(
    first: u64,
    height: u64,
    sort: ExprSort,
    fault: Option<CheckFault>,
) -> Judgement
    ensures settled { result ≡ settle first height sort fault }
{
    let fault = lesser(fault, fault_if(256 < height, Rule::Limit, first));
    match fault {
        None => Judgement {
            first,
            height,
            sort,
            fault,
        },
        Some(_) => Judgement {
            first,
            height,
            sort: ExprSort::Unknown,
            fault,
        },
    }
}

/// An expression of one node.
pub(crate) fn leaf(at: u64, sort: ExprSort) -> Judgement
    ensures leaf { result ≡ judgements.leaf at sort }
{
    settled(at, 1, sort, None)
}
