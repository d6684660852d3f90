// Building a table. Cites `specs/Build.antt`.
//     Built        what a build gives
//     refused      a refused build
//     build        a list of records and a degree bound to a table
ghost use Rattle.std.specs.Prelude.{◌≡◌};
ghost use Rattle.laws.specs.Limits.{narrow};
ghost use Rattle.std.specs.Prelude.{Err};
ghost use Rattle.answers.specs.Outcome.{outcome_of};
ghost use Rattle.kept.specs.View.{zero_table};
ghost use Rattle.table.specs.Build.{build_table};

use crate::working::again;
use answers::{Answer, Refusal};
use kept::{DEGREE_HIGH, DEGREE_LOW, Table, zero_table};
use lists::{Listing, read_list};

// What a build gives: the table is all zero where the answer is a refusal.
// The answer stands beside it, and is no `Result` over it: the rules have a refused build hand back the zero table (`build_table`).
#[derive(Clone, Copy)]
pub struct Built {
    pub answer: Answer,
    pub table: Table,
}

// A refused build.
fn refused(refusal: Refusal) -> Built
    ensures { outcome_of result.answer result.table ≡ outcome_of (Err refusal) zero_table }
{
    Built {
        answer: Err(refusal),
        table: zero_table(),
    }
}

// The table of a list of records with the degree bound `degree`. Refused 4, 1, 3, 2, 5, 6 in that order. The empty cluster lies inside
// every other, so every row is worked out.
pub fn build(list: &[u8], degree: u32) -> Built
    ensures { outcome_of result.answer result.table ≡ build_table narrow list.now degree }
{
    if !(DEGREE_LOW..=DEGREE_HIGH).contains(&degree) {
        return refused(Refusal::DegreeOut);
    }
    let Listing {
        rows,
        clusters,
        weights,
        states,
    } = match read_list(list) {
        Ok(listing) => listing,
        Err(refusal) => return refused(refusal),
    };
    let mut table = Table {
        rows,
        clusters,
        weights,
        states,
        degree,
        ..zero_table()
    };
    again(&mut table, 0);
    Built {
        answer: Ok(0),
        table,
    }
}
