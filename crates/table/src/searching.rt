// The search of tuples. The next child holds the highest taxon left, so it is one of a run of rows; the last child is looked up; children
// left fall. Cites `specs/Searched.antt`.
//     starts_of       where the rows of each highest taxon start
//     part            a row as one part of a tuple
//     last            the one cover of a cluster by one row
//     is_part         whether a row may be the next child
//     search          the sum over the covers of a cluster
ghost use Rattle.std.specs.Prelude.{◌≡◌, ◌&&◌, ◌≤◌, ◌<◌, get_or};
ghost use Rattle.laws.specs.Cluster.{inside};
ghost use Rattle.laws.specs.Limits.{narrow, degree_high, row_cap};
ghost use Rattle.laws.specs.State.{scored};
ghost use Rattle.kept.specs.Arrays.{Rising};
ghost use Rattle.table.specs.Tally.{tally_of};
ghost use Rattle.table.specs.Searched.{Past, Below, Starts, WordsIn, Readable, Searchable};
ghost use Rattle.table.specs.Columns.{columns_of, part_tally, parts_of, sum_covers};

use crate::tally::Tally;
use cluster::{highest, is_inside, is_scored};
use kept::Table;

// For each taxon, how many rows lie below it, among them those below the taxon before; the last start is the number of rows. A start is
// short, because 65 of them are filled for each table.
pub(crate) fn starts_of(t: &Table) -> [u16; 65]
    requires rows_le_row_cap { t.now.rows ≤ row_cap }
    requires rising { Rising t.now.clusters t.now.rows }
    requires words_in { WordsIn t.now.clusters t.now.rows }
    ensures { Starts t.now.clusters t.now.rows result }
{
    let mut starts = [t.rows as u16; 65];
    let mut past = 0;
    for taxon in 0..64 {
        let mark = 1 << taxon;
        past += t.clusters[past..t.rows].partition_point(|cluster| *cluster < mark);
        starts[taxon] = past as u16;
    }
    starts
}

// Row `i` as one part of a tuple.
fn part(t: &Table, i: usize) -> Tally
    requires { i < row_cap }
    ensures { result ≡ part_tally (columns_of t.now) i }
{
    Tally {
        tuples: 1,
        count: t.counts[i],
        mark: u64::from(t.marks[i]),
        best: t.bests[i],
        low: t.members_low[i],
        high: t.members_high[i],
    }
}

// Over the covers of `rest` by one of the first `end` rows: the row of `rest` itself, if it is there and scored. It isn't among the first
// `start`, which are below.
fn last(t: &Table, start: usize, end: usize, rest: u64) -> Tally
    requires readable { Readable narrow.count_max (columns_of t.now) end }
    requires rest_nonzero { 0 < rest }
    requires past { Past t.now.clusters end rest start }
    ensures { result ≡ tally_of narrow.count_max (sum_covers 1 rest (parts_of (columns_of t.now) end)) }
{
    match t.clusters[start..end].binary_search(&rest) {
        Ok(place) if is_scored(t.states[start + place]) => part(t, start + place),
        _ => Tally::NONE,
    }
}

// Whether row `i` is scored and lies inside `rest`.
fn is_part(t: &Table, rest: u64, i: usize) -> bool
    requires { i < row_cap }
    ensures { result ≡ (inside (get_or t.now.clusters i 0) rest && scored (get_or t.now.states i 0)) }
{
    is_inside(t.clusters[i], rest) && is_scored(t.states[i])
}

// Over the covers of `rest` by at most `left` of the first `end` rows, which are all below the taxon above `rest`'s highest. The last child
// is looked up where the one before it is met: most tuples end there.
pub(crate) fn search(t: &Table, starts: &[u16; 65], end: usize, rest: u64, left: u32) -> Tally
    requires searchable { Searchable narrow.count_max (columns_of t.now) starts.now end rest }
    requires le_left { (2 ≤ left) × (left < degree_high) }
    ensures { result ≡ tally_of narrow.count_max (sum_covers left rest (parts_of (columns_of t.now) end)) }
{
    let start = usize::from(starts[highest(rest) as usize]);
    let mut sum = Tally::NONE;
    for i in (start..end).rev() {
        if is_part(t, rest, i) {
            let one = part(t, i);
            let other = rest - t.clusters[i];
            let added = if other == 0 {
                one
            } else {
                let top = highest(other) as usize;
                let next = usize::from(starts[top + 1]);
                let inner = if left == 2 {
                    last(t, usize::from(starts[top]), next, other)
                } else {
                    search(t, starts, next, other, left - 1)
                };
                one.under(inner)
            };
            sum = sum.plus(added);
        }
    }
    sum
}
