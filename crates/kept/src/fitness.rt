// Whether a table is fit, whatever it holds. Cites `specs/Fit.antt`, and `specs/Fields.antt` for the private functions.
//     is_fit           every sentence of what a fit table is (RULES 6)
//     is_record        cluster, weight and state keep the record rules
//     is_row_fit       one of the rows
//     is_rising        the clusters ascend
//     has_right_rows   each row is fit, or past the number and all zero
ghost use Rattle.std.specs.Prelude.{◌≡◌, ◌≤◌, ◌<◌, length};
ghost use Rattle.laws.specs.Limits.{narrow, row_cap};
ghost use Rattle.kept.specs.View.{entry_at, clusters_in};
ghost use Rattle.cluster.specs.Rule.{keeps_rules};
ghost use Rattle.kept.specs.Fit.{fit_entry, is_rising, has_right_rows, is_fit};
ghost use Rattle.kept.specs.Arrays.{Rising};
ghost use Rattle.kept.specs.Fields.{listed_in};

use crate::fields::Fields;
use crate::limits::{DEGREE_HIGH, DEGREE_LOW, ROW_CAP, ROWS, TAXA_VALUES};
use crate::table::Table;
use cluster::{broken_rule, is_kept};

impl Fields {
    // Whether cluster, weight and state keep the record rules, and the cluster is within the width.
    fn is_record(&self) -> bool
        ensures { result ≡ keeps_rules narrow (listed_in self.now) }
    {
        self.cluster < TAXA_VALUES
            && is_kept(broken_rule(self.cluster, self.weight, self.state, false))
    }
}

// Whether row `i` of `t` is fit.
fn is_row_fit(t: &Table, i: usize) -> bool
    requires rising { Rising t.now.clusters t.now.rows }
    requires capped { t.now.rows ≤ row_cap }
    requires place { i < t.now.rows }
    ensures { result ≡ fit_entry narrow (clusters_in t.now) (entry_at t.now i) }
{
    let row = Fields::of(t, i);
    row.is_record() && row.is_ranged() && row.is_matched(&t.clusters[..t.rows], i)
}

// Whether the clusters ascend strictly.
fn is_rising(clusters: &[u64]) -> bool
    ensures { result ≡ is_rising clusters.now (length clusters.now) }
{
    clusters.is_sorted_by(|a, b| a < b)
}

// Whether each row is fit, and the places past the number of rows are all zero. From the last place down: the places past the rows are
// tested soonest, and a fault at the end of the rows is met before the others are tested.
fn has_right_rows(t: &Table) -> bool
    requires rising { Rising t.now.clusters t.now.rows }
    requires capped { t.now.rows ≤ row_cap }
    ensures { result ≡ has_right_rows narrow (clusters_in t.now) t.now t.now.rows row_cap }
{
    (t.rows..ROW_CAP).rev().all(|i| Fields::of(t, i).is_empty())
        && (0..t.rows).rev().all(|i| is_row_fit(t, i))
}

// Whether `t` is fit, whatever it holds.
pub fn is_fit(t: Table) -> bool
    ensures { result ≡ is_fit narrow t }
{
    (DEGREE_LOW..=DEGREE_HIGH).contains(&t.degree)
        && (1..=ROWS).contains(&t.rows)
        && is_rising(&t.clusters[..t.rows])
        && has_right_rows(&t)
}
