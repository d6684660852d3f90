// Rows worked out from the rows beneath, in ascending order. Cites `specs/Working.antt`.
//     own        a row by itself
//     worked     the result of one row
//     again      every row that contains a cluster
ghost use Rattle.std.specs.Prelude.{◌≡◌, ◌<◌, pos, get_or};
ghost use Rattle.laws.specs.Limits.{narrow, row_cap};
ghost use Rattle.table.specs.Tally.{own_tally, low_mark, high_mark};
ghost use Rattle.table.specs.Working.{Workable, worked_tally, again_table, Ready};
ghost use Rattle.table.specs.Columns.{columns_of};

use crate::searching::{search, starts_of};
use crate::tally::Tally;
use cluster::{is_inside, is_scored, is_single};
use kept::{Table, WORD_ROWS};

// The mark of row `i` in the low word.
fn low_mark(i: usize) -> u64
    ensures { result ≡ low_mark i }
{
    if i < WORD_ROWS { 1 << i } else { 0 }
}

// The mark of row `i` in the high word.
fn high_mark(i: usize) -> u64
    requires { i < row_cap }
    ensures { result ≡ high_mark i }
{
    if i < WORD_ROWS {
        0
    } else {
        1 << (i - WORD_ROWS)
    }
}

// Row `i` by itself, as one tuple or as none.
fn own(weight: i32, i: usize, tuples: u64) -> Tally
    requires { i < row_cap }
    ensures { result ≡ own_tally tuples weight i }
{
    Tally {
        tuples,
        count: 1,
        mark: 0,
        best: i64::from(weight),
        low: low_mark(i),
        high: high_mark(i),
    }
}

// The result of row `i`, from the rows beneath.
fn worked(t: &Table, starts: &[u16; 65], i: usize) -> Tally
    requires { Ready narrow (columns_of t.now) starts.now (get_or t.now.weights i (pos 0)) i t.now.degree }
    ensures { result ≡ worked_tally narrow (columns_of t.now) (get_or t.now.weights i (pos 0)) i t.now.degree }
{
    if !is_scored(t.states[i]) {
        return Tally::NONE;
    }
    let cluster = t.clusters[i];
    let weight = t.weights[i];
    if is_single(cluster) {
        return own(weight, i, 0);
    }
    let found = search(t, starts, i, cluster, t.degree - 1);
    own(weight, i, 1).under(found)
}

// The results of every row that contains `cluster` worked out again, in ascending order; those of the others stay as they are. The table
// is lent: by value it would be copied in and out.
pub(crate) fn again(t: &mut Table, cluster: u64)
    requires { Workable narrow t.old cluster }
    ensures { t.new ≡ again_table narrow t.old cluster }
{
    let starts = starts_of(t);
    for i in 0..t.rows {
        if is_inside(cluster, t.clusters[i]) {
            let row = worked(t, &starts, i);
            t.lengths[i] = row.tuples;
            t.counts[i] = row.count;
            t.marks[i] = row.mark as u8;
            t.bests[i] = row.best;
            t.members_low[i] = row.low;
            t.members_high[i] = row.high;
        }
    }
}
