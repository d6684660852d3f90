// One row by value, and whether its results, or the whole of it, are all zero. Cites `specs/Blank.antt`, and `specs/Fields.antt` for the row.
//     Fields           one row by value
//     of               row i of a table
//     is_nothing, is_blank, is_empty     no marks, mark and best; every result zero; the whole row zero
ghost use Rattle.std.specs.Prelude.{◌≡◌, ◌<◌};
ghost use Rattle.laws.specs.Limits.{row_cap};
ghost use Rattle.kept.specs.View.{entry_at};
ghost use Rattle.kept.specs.Blank.{is_nothing, is_blank, is_empty};
ghost use Rattle.kept.specs.Fields.{result_in, entry_in};

use crate::table::Table;

// One row by value: element i of each array.
#[derive(Clone, Copy)]
pub(crate) struct Fields {
    pub(crate) cluster: u64,
    pub(crate) weight: i32,
    pub(crate) state: u8,
    pub(crate) length: u64,
    pub(crate) count: u64,
    pub(crate) mark: u8,
    pub(crate) best: i64,
    pub(crate) low: u64,
    pub(crate) high: u64,
}

impl Fields {
    // Row `i` of a table: the arrays are read once, and what is tested then is at hand.
    pub(crate) fn of(t: &Table, i: usize) -> Fields
        requires { i < row_cap }
        ensures { entry_in result ≡ entry_at t.now i }
    {
        Fields {
            cluster: t.clusters[i],
            weight: t.weights[i],
            state: t.states[i],
            length: t.lengths[i],
            count: t.counts[i],
            mark: t.marks[i],
            best: t.bests[i],
            low: t.members_low[i],
            high: t.members_high[i],
        }
    }

    // Whether no row is marked, and mark and best weight are zero.
    pub(crate) fn is_nothing(&self) -> bool
        ensures { result ≡ is_nothing (result_in self.now) }
    {
        self.low == 0 && self.high == 0 && self.mark == 0 && self.best == 0
    }

    // Whether every result is zero.
    pub(crate) fn is_blank(&self) -> bool
        ensures { result ≡ is_blank (result_in self.now) }
    {
        self.length == 0 && self.count == 0 && self.is_nothing()
    }

    // Whether the whole row is zero.
    pub(crate) fn is_empty(&self) -> bool
        ensures { result ≡ is_empty (entry_in self.now) }
    {
        self.cluster == 0 && self.weight == 0 && self.state == 0 && self.is_blank()
    }
}
