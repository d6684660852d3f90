// The member marks of one row: one of them, and all, walked by their set bits alone. Cites `specs/Marks.antt`, and `specs/Fields.antt` for
// the marks of a word.
//     is_marked        whether a row is marked
//     is_word_fit      whether each row that a word marks is there, and lies inside a cluster
ghost use Rattle.std.specs.Prelude.{◌≡◌, ◌+◌, ◌*◌, ◌≤◌};
ghost use Rattle.laws.specs.Limits.{word_values};
ghost use Rattle.kept.specs.Marks.{has_mark};
ghost use Rattle.kept.specs.Fields.{every_bit, is_mark_fit};

use crate::limits::{ROW_CAP, WORD_ROWS};
use cluster::{is_inside, lowest};

// Whether row `i` is marked in the two words. None past the room for rows is.
pub fn is_marked(low: u64, high: u64, i: usize) -> bool
    ensures { result ≡ has_mark (low + word_values * high) i }
{
    if i < WORD_ROWS {
        (low >> i) % 2 == 1
    } else if i < ROW_CAP {
        (high >> (i - WORD_ROWS)) % 2 == 1
    } else {
        false
    }
}

// Whether each row that a word marks is one of those whose clusters are handed in, and lies inside `cluster`; bit 0 of the word is row
// `base`. The lowest bit goes first, and goes with the number before: that needs no count of where it stood.
pub(crate) fn is_word_fit(clusters: &[u64], base: usize, word: u64, cluster: u64) -> bool
    requires { base ≤ 64 }
    ensures { result ≡ every_bit word 64 (is_mark_fit clusters.now cluster base) }
{
    let mut rest = word;
    while rest != 0 {
        let marked = clusters.get(base + lowest(rest) as usize);
        if !marked.is_some_and(|&inner| is_inside(inner, cluster)) {
            return false;
        }
        rest &= rest - 1;
    }
    true
}
