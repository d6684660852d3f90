// Looking up rows in a table, whatever it holds. Cites `specs/Rows.antt`.
//     shown_rows   how many rows there are to look at
//     place_of     where the row of a cluster stands
//     leaf_set     the union of the scored clusters
ghost use Rattle.std.specs.Prelude.{◌≡◌};
ghost use Rattle.kept.specs.Rows.{shown_rows, place_of, leaf_set};

use crate::limits::ROW_CAP;
use crate::table::Table;
use cluster::is_scored;

// How many rows of `t` there are to look at: none past the 128.
fn shown_rows(t: &Table) -> usize
    ensures { result ≡ shown_rows t.now }
{
    t.rows.min(ROW_CAP)
}

// The row of `cluster`, counted from 0; the number of rows, but no more than 128, where it has none.
pub fn place_of(t: Table, cluster: u64) -> usize
    ensures { result ≡ place_of t cluster }
{
    let n = shown_rows(&t);
    // No binary search: the first place is told in a table of any value, whose clusters may stand in any order.
    t.clusters[..n]
        .iter()
        .position(|&c| c == cluster)
        .unwrap_or(n)
}

// The union of the scored clusters, whatever they weigh: no taxon where no row is scored.
pub fn leaf_set(t: Table) -> u64
    ensures { result ≡ leaf_set t }
{
    let n = shown_rows(&t);
    t.clusters[..n]
        .iter()
        .zip(&t.states[..n])
        .filter(|&(_, &state)| is_scored(state))
        .fold(0, |all, (&cluster, _)| all | cluster)
}
