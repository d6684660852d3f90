// Whether the results of a row are those of a fit one. Cites `specs/Results.antt`, and `specs/Fields.antt` for a row by value.
//     is_mark          what a mark may be beside a count
//     is_light         the bound of a best weight
//     is_length, is_ranged     the ranges of the results
//     is_matched       what the count says of marks and best
ghost use Rattle.std.specs.Prelude.{◌≡◌, ◌≤◌, ◌<◌, length};
ghost use Rattle.laws.specs.Limits.{narrow};
ghost use Rattle.kept.specs.View.{clusters_down};
ghost use Rattle.kept.specs.Results.{is_length, is_mark, is_ranged, is_light, is_matched};
ghost use Rattle.kept.specs.Fields.{listed_in, result_in, AtRow};

use crate::fields::Fields;
use crate::limits::{COUNT_MAX, LENGTH_MAX, WORD_ROWS};
use crate::marks::{is_marked, is_word_fit};
use cluster::{WEIGHT_MAX, is_scored, is_single, size};

// Whether a mark is 0, or 1 beside the largest count.
fn is_mark(mark: u8, count: u64) -> bool
    ensures { result ≡ is_mark narrow mark count }
{
    mark == 0 || (mark == 1 && count == COUNT_MAX)
}

// Whether a best weight is one that a tree on so many taxa can have.
fn is_light(best: i64, taxa: u32) -> bool
    requires { (1 ≤ taxa) × (taxa ≤ 64) }
    ensures { result ≡ is_light best taxa }
{
    best.unsigned_abs() <= WEIGHT_MAX as u64 * u64::from(2 * taxa - 1)
}

impl Fields {
    // Whether the row length is in range: that of one taxon is zero.
    fn is_length(&self) -> bool
        ensures { result ≡ is_length narrow (listed_in self.now) (result_in self.now) }
    {
        self.length <= LENGTH_MAX && (!is_single(self.cluster) || self.length == 0)
    }

    // Whether the results are in their ranges, and all zero where the row is unscored.
    pub(crate) fn is_ranged(&self) -> bool
        ensures { result ≡ is_ranged narrow (listed_in self.now) (result_in self.now) }
    {
        self.is_length()
            && self.count <= COUNT_MAX
            && is_mark(self.mark, self.count)
            && (is_scored(self.state) || self.is_blank())
    }

    // Whether count, marks and best weight go together, the row being row `i` of those whose clusters are handed in. A row that is marked
    // past them is found by the walk.
    pub(crate) fn is_matched(&self, clusters: &[u64], i: usize) -> bool
        requires at_row { AtRow clusters.now i self.now }
        requires cluster_nonzero { 0 < self.now.cluster }
        ensures { result ≡ is_matched (clusters_down clusters.now (length clusters.now)) (listed_in self.now) (result_in self.now) }
    {
        if self.count == 0 {
            return self.is_nothing();
        }
        is_marked(self.low, self.high, i)
            && is_word_fit(clusters, 0, self.low, self.cluster)
            && is_word_fit(clusters, WORD_ROWS, self.high, self.cluster)
            && is_light(self.best, size(self.cluster))
    }
}
