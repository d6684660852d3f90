// A column of a gel sheet. Cites `specs/Columns.antt` and `specs/Form.antt`.
//     one_in          what a mark counts
//     Sheet::column   the cluster of a column
ghost use Rattle.std.specs.Prelude.{◌≡◌, ◌<◌, T, eqb, cond};
ghost use Rattle.gel.specs.Lines.{one};
ghost use Rattle.gel.specs.Columns.{column_at};
ghost use Rattle.gel.specs.Form.{is_bit, read_of};

use crate::lines::{NOUGHT, Sheet, UNREAD};

// A 1 counts one, a 0 nothing.
fn one_in(mark: u8) -> u64
    requires { T (is_bit mark) }
    ensures { result ≡ cond (eqb mark one) 1 0 }
{
    u64::from(mark) - u64::from(NOUGHT)
}

impl Sheet<'_> {
    // The cluster of the ones of column `j`; none where it has a ?. It is read from the last line up: each line doubles the cluster of those
    // beneath it, and no taxon is kept beside it.
    pub(crate) fn column(&self, j: usize) -> Option<u64>
        requires { j < self.now.width }
        ensures { result ≡ read_of (column_at self.now.bytes.now j) }
    {
        let mut cluster = 0;
        for line in self.bytes.rchunks_exact(self.width + 1) {
            let mark = line[j];
            if mark == UNREAD {
                return None;
            }
            cluster = 2 * cluster + one_in(mark);
        }
        Some(cluster)
    }
}
