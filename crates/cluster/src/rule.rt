// The record rules, in one function that tells which is broken first. Cites `specs/Rule.antt`.
//     Rule            the rules, in the order in which they are tested
//     broken_rule     the rule that a cluster, a weight and a state break first, if they break one
//     is_kept         whether they break none
//     is_score        whether a weight and a state break none, whatever the cluster
ghost use Rattle.std.specs.Prelude.{◌≡◌};
ghost use Rattle.cluster.specs.Rule.{in_range, unscored_weight, broken_rule, is_kept, is_score};

use crate::state::{UNSCORED, is_state};

// The largest weight, either way.
pub const WEIGHT_MAX: i32 = 1000000;

// A record rule that is broken; the first is told, in this order.
#[derive(Clone, Copy, Debug, PartialEq, Eq)]
pub enum Rule {
    // The cluster is zero.
    EmptyCluster,
    // The state is neither of the two.
    UnknownState,
    // A spare byte isn't zero.
    SpareBytes,
    // The cluster is unscored and its weight isn't zero.
    UnscoredWeight,
    // The weight is out of range.
    WeightRange,
}

// Whether a weight is in range.
fn is_in_range(weight: i32) -> bool
    ensures { result ≡ in_range weight }
{
    (-WEIGHT_MAX..=WEIGHT_MAX).contains(&weight)
}

// Whether the state is unscored and there is a weight.
fn has_unscored_weight(weight: i32, state: u8) -> bool
    ensures { result ≡ unscored_weight weight state }
{
    state == UNSCORED && weight != 0
}

// The record rule that cluster, weight and state break first, if they break one; `spare` is whether a spare byte is set beside them.
pub fn broken_rule(cluster: u64, weight: i32, state: u8, spare: bool) -> Option<Rule>
    ensures { result ≡ broken_rule cluster weight state spare }
{
    if cluster == 0 {
        return Some(Rule::EmptyCluster);
    }
    if !is_state(state) {
        return Some(Rule::UnknownState);
    }
    if spare {
        return Some(Rule::SpareBytes);
    }
    if has_unscored_weight(weight, state) {
        return Some(Rule::UnscoredWeight);
    }
    if is_in_range(weight) {
        return None;
    }
    Some(Rule::WeightRange)
}

// Whether weight and state keep the rules, whatever the cluster.
#[tactic(auto, unfolding(crate::specs::Rule::is_score))]
pub fn is_score(weight: i32, state: u8) -> bool
    ensures { result ≡ is_score weight state }
{
    is_state(state) && !has_unscored_weight(weight, state) && is_in_range(weight)
}

// Whether no rule is broken.
pub fn is_kept(rule: Option<Rule>) -> bool
    ensures { result ≡ is_kept rule }
{
    rule.is_none()
}
