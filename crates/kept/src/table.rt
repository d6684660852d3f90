// The table: one struct by value, with room for 128 rows in ascending order of their clusters. Cites `specs/View.antt`.
//     Table               degree bound, number of rows, and one array for each field of a row
//     zero_table          the table that is all zero
ghost use Rattle.std.specs.Prelude.{◌≡◌};
ghost use Rattle.kept.specs.View.{zero_table};

// Row i of the table is element i of each array. Bit j of `members_low[i]` is the mark of row j in row i for j below 64, and bit j - 64 of
// `members_high[i]` for the others. Clusters and counts have 64 bits so that a wider table needs no other code; fitness
// holds them to 32.
// Parallel arrays and no array of rows: this form of the table is given (`docs/DECISIONS.md`, "Forms").
#[derive(Clone, Copy)]
pub struct Table {
    pub rows: usize,
    pub clusters: [u64; 128],
    pub weights: [i32; 128],
    pub states: [u8; 128],
    pub lengths: [u64; 128],
    pub counts: [u64; 128],
    pub marks: [u8; 128],
    pub bests: [i64; 128],
    pub members_low: [u64; 128],
    pub members_high: [u64; 128],
    pub degree: u32,
}

// The table that is all zero: what a refused build hands back. Repeated arrays and no `Default`: this form is given too.
pub fn zero_table() -> Table
    ensures { result ≡ zero_table }
{
    Table {
        rows: 0,
        clusters: [0; 128],
        weights: [0; 128],
        states: [0; 128],
        lengths: [0; 128],
        counts: [0; 128],
        marks: [0; 128],
        bests: [0; 128],
        members_low: [0; 128],
        members_high: [0; 128],
        degree: 0,
    }
}
