// Rescoring one cluster of a kept table. Cites `specs/Rescore.antt`.
//     Rescored     what a rescoring gives
//     refused      a refused rescoring
//     rescore      one row with a new weight and state, and every row that contains it worked out again
ghost use Rattle.std.specs.Prelude.{◌≡◌};
ghost use Rattle.laws.specs.Limits.{narrow};
ghost use Rattle.std.specs.Prelude.{Err};
ghost use Rattle.answers.specs.Outcome.{outcome_of};
ghost use Rattle.table.specs.Rescore.{rescore_table};

use crate::working::again;
use answers::{Answer, Refusal};
use cluster::is_score;
use kept::{Table, is_fit, place_of};

// What a rescoring gives: the table is as it was given where the answer is a refusal.
// The answer stands beside it, and is no `Result` over it: the rules have a refused rescoring hand back the table (`rescore_table`).
#[derive(Clone, Copy)]
pub struct Rescored {
    pub answer: Answer,
    pub table: Table,
}

// A refused rescoring.
fn refused(refusal: Refusal, given: Table) -> Rescored
    ensures { outcome_of result.answer result.table ≡ outcome_of (Err refusal) given }
{
    Rescored {
        answer: Err(refusal),
        table: given,
    }
}

// The table with a new weight and state in the row of `cluster`. Refused 8 (fitness only), 9, 10 in that order.
pub fn rescore(given: Table, cluster: u64, weight: i32, state: u8) -> Rescored
    ensures { outcome_of result.answer result.table ≡ rescore_table narrow given cluster weight state }
{
    if !is_fit(given) {
        return refused(Refusal::Unfit, given);
    }
    let at = place_of(given, cluster);
    if given.rows <= at {
        return refused(Refusal::NoRow, given);
    }
    if !is_score(weight, state) {
        return refused(Refusal::BadScore, given);
    }
    let mut table = given;
    table.weights[at] = weight;
    table.states[at] = state;
    again(&mut table, cluster);
    Rescored {
        answer: Ok(0),
        table,
    }
}
