// The marked rows of a table. Cites `specs/Marked.antt`, and `specs/Gathered.antt` for what is gathered.
//     Members        the marked rows: clusters and weight
//     members_of     the marked rows, gathered, where each is scored
ghost use Rattle.std.specs.Prelude.{◌≡◌, false, ◌+◌, ◌*◌, ◌≤◌, MatchOption};
ghost use Rattle.laws.specs.Limits.{row_cap, word_values};
ghost use Rattle.members.specs.Marked.{scored_to};
ghost use Rattle.members.specs.Gathered.{Gathered};

use arrayvec::ArrayVec;
use cluster::is_scored;
use kept::{ROW_CAP, Table, is_marked};

// The marked rows: their clusters, ascending, and their weights added up. There is room for each row: a list that grows would allocate, and
// what allocates can fail.
#[derive(Drop)]
pub(crate) struct Members {
    pub(crate) clusters: ArrayVec<u64, ROW_CAP>,
    pub(crate) weight: i64,
}

// The marked rows of a table, or none where one of them is unscored.
pub(crate) fn members_of(t: &Table, low: u64, high: u64) -> Option<Members>
    requires { t.now.rows ≤ row_cap }
    ensures { let marks = low + word_values * high in
        MatchOption result (scored_to t.now.states marks t.now.rows ≡ false) (λ r. Gathered t.now marks t.now.rows r) }
{
    let mut members = Members {
        clusters: ArrayVec::new(),
        weight: 0,
    };
    for i in 0..t.rows {
        if is_marked(low, high, i) {
            if !is_scored(t.states[i]) {
                return None;
            }
            members.clusters.push(t.clusters[i]);
            members.weight += i64::from(t.weights[i]);
        }
    }
    Some(members)
}
