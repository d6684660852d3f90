// What is drawn of a table, worked out once. Cites `specs/Draw.antt`, and `specs/Gathered.antt` for the private functions.
//     Drawn            what is drawn
//     drawn_members    the members of the leaf set's row, if its marks are a tree of its best weight
//     drawn_tree       what is drawn of a table
ghost use Rattle.std.specs.Prelude.{◌≡◌};
ghost use Rattle.laws.specs.Limits.{narrow};
ghost use Rattle.answers.specs.Outcome.{outcome_of};
ghost use Rattle.members.specs.Draw.{no_members, drawn_tree, drawn_of};
ghost use Rattle.members.specs.Gathered.{Found};

use crate::marks::members_of;
use crate::nesting::is_tree;
use answers::Refusal;
use kept::{Table, is_fit, leaf_set, place_of};

// What is drawn of a table: the leaf set's row, and its members, which are the first `size` clusters, ascending; the others are zero. An
// array and a number, as in the table, so that it is copied as the table is: a vector can't be.
#[derive(Clone, Copy)]
pub struct Drawn {
    pub row: usize,
    pub clusters: [u64; 128],
    pub size: usize,
}

// The members of row `row`, the leaf set's. Refused 8 where its marks aren't a tree of its best weight.
fn drawn_members(t: &Table, top: u64, row: usize) -> Result<Drawn, Refusal>
    requires { Found narrow t.now top row }
    ensures { drawn_of result ≡ drawn_tree narrow t.now }
{
    let Some(members) = members_of(t, t.members_low[row], t.members_high[row]) else {
        return Err(Refusal::Unfit);
    };
    if members.weight != t.bests[row] || !is_tree(&members.clusters, top, t.degree) {
        return Err(Refusal::Unfit);
    }
    let size = members.clusters.len();
    let mut clusters = [0; 128];
    clusters[..size].copy_from_slice(&members.clusters);
    Ok(Drawn {
        row,
        clusters,
        size,
    })
}

// What is drawn of a table: the members of the leaf set's row. Refused 8 (fitness), 7, 8 (marks) in that order.
pub fn drawn_tree(t: Table) -> Result<Drawn, Refusal>
    ensures { drawn_of result ≡ drawn_tree narrow t }
{
    if !is_fit(t) {
        return Err(Refusal::Unfit);
    }
    let top = leaf_set(t);
    let row = place_of(t, top);
    if t.rows <= row || t.counts[row] == 0 {
        return Err(Refusal::NoTree);
    }
    drawn_members(&t, top, row)
}
