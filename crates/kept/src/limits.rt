// The rules' limits that the code compares with, each named once. `specs/Limits.antt` of the crate `laws` has them for the definitions.
// Rows that a table may have: a limit of the width.
pub(crate) const ROWS: usize = 128;

// The room for rows in the arrays of a table, which a width may leave unused.
pub const ROW_CAP: usize = 128;

// The clusters of the width are below it.
pub(crate) const TAXA_VALUES: u64 = 4294967296;

// The largest count that is told exactly.
pub const COUNT_MAX: u64 = 4294967295;

// The largest row length.
pub(crate) const LENGTH_MAX: u64 = 10676001;

// The degree bounds that are taken.
pub const DEGREE_LOW: u32 = 3;

pub const DEGREE_HIGH: u32 = 5;

// Rows whose marks are in the low word.
pub const WORD_ROWS: usize = 64;
