// Tallies: what the search of tuples adds up. Cites `specs/Tally.antt`.
//     Tally          how many tuples, and the count, mark, best weight and members of the trees that they lead to
//     Count          a count and its mark
//     Tally::NONE    no tuple
//     plus           the tuples of both
//     under          the tuples of another, each with one more child
ghost use Rattle.std.specs.Prelude.{◌≡◌, ◌+◌, ◌≤◌, ◌<◌, ◌+ℤ◌};
ghost use Rattle.std.specs.Int.{w64};
ghost use Rattle.std.proofs.Common.{SFits};
ghost use Rattle.laws.specs.Limits.{narrow, word_values};
ghost use Rattle.table.specs.Sums.{exact_count, capped_sum, capped_product};
ghost use Rattle.table.specs.Sums.{is_larger, is_before, keeps_first, plus_tally, under_tally};

use kept::COUNT_MAX;

// A number of tuples with the fields of a row. A count of 0 says that no tuple leads to a tree, and then the rest is zero. The mark has a
// whole word, so that a tally has no gap to be copied.
#[derive(Clone, Copy)]
pub(crate) struct Tally {
    pub tuples: u64,
    pub count: u64,
    pub mark: u64,
    pub best: i64,
    pub low: u64,
    pub high: u64,
}

// A count and its mark, as a row of a table has them in two columns by the rules: an `Option` would be made of them and taken apart again.
#[derive(Clone, Copy)]
pub(crate) struct Count {
    pub count: u64,
    pub mark: u64,
}

impl Count {
    // A count past the limit.
    const MANY: Count = Count {
        count: COUNT_MAX,
        mark: 1,
    };

    // A count that is told exactly.
    fn exact(count: u64) -> Count
        ensures { result ≡ exact_count count }
    {
        Count { count, mark: 0 }
    }
}

impl Tally {
    // No tuple.
    pub(crate) const NONE: Tally = Tally {
        tuples: 0,
        count: 0,
        mark: 0,
        best: 0,
        low: 0,
        high: 0,
    };

    // The count of two lists of trees.
    #[tactic(auto, unfolding(crate::specs::Sums::capped_sum))]
    fn capped_sum(self, other: Tally) -> Count
        requires { other.count ≤ narrow.count_max }
        ensures { result ≡ capped_sum narrow.count_max self other }
    {
        if self.mark == 1 || other.mark == 1 || COUNT_MAX - other.count < self.count {
            return Count::MANY;
        }
        Count::exact(self.count + other.count)
    }

    // The count of the pairs of two lists of trees: none where one of them is empty, marked or not.
    #[tactic(auto, unfolding(crate::specs::Sums::capped_product))]
    fn capped_product(self, other: Tally) -> Count
        ensures { result ≡ capped_product narrow.count_max self other }
    {
        if self.count == 0 || other.count == 0 {
            return Count::exact(0);
        }
        if self.mark == 1 || other.mark == 1 || COUNT_MAX / other.count < self.count {
            return Count::MANY;
        }
        Count::exact(self.count * other.count)
    }

    // Whether the set of `self`, read as one number, is the larger: the tie rule. Two comparisons: with pairs of words,
    // `(self.high, self.low)`, builds of the hardest list take 1.41 to 1.51 times the C++ program's time, at the bar of 1.5; so, 1.16 to 1.35.
    fn is_larger(self, other: Tally) -> bool
        ensures { result ≡ is_larger self other }
    {
        if self.high == other.high {
            return self.low > other.low;
        }
        self.high > other.high
    }

    // Whether `self` is heavier, or as heavy and first by the tie rule.
    #[tactic(auto, unfolding(crate::specs::Sums::is_before))]
    fn is_before(self, other: Tally) -> bool
        ensures { result ≡ is_before self other }
    {
        self.best > other.best || self.best == other.best && self.is_larger(other)
    }

    // Whether the sum of both has the best of `self`.
    #[tactic(auto, unfolding(crate::specs::Sums::keeps_first))]
    fn keeps_first(self, other: Tally) -> bool
        ensures { result ≡ keeps_first self other }
    {
        other.count == 0 || self.count != 0 && self.is_before(other)
    }

    // The tuples of both.
    #[tactic(auto, unfolding(crate::specs::Sums::plus_tally))]
    pub(crate) fn plus(self, other: Tally) -> Tally
        requires count_le_limit { other.count ≤ narrow.count_max }
        requires tuples_bound { self.tuples + other.tuples < word_values }
        ensures { result ≡ plus_tally narrow.count_max self other }
    {
        let Count { count, mark } = self.capped_sum(other);
        let first = if self.keeps_first(other) { self } else { other };
        Tally {
            tuples: self.tuples + other.tuples,
            count,
            mark,
            ..first
        }
    }

    // The tuples of `other`, each with one more child, `self`.
    #[tactic(auto, unfolding(crate::specs::Sums::under_tally))]
    pub(crate) fn under(self, other: Tally) -> Tally
        requires sfits { SFits w64 (self.best +ℤ other.best) }
        requires low_bound { self.low + other.low < word_values }
        requires high_bound { self.high + other.high < word_values }
        ensures { result ≡ under_tally narrow.count_max self other }
    {
        let Count { count, mark } = self.capped_product(other);
        if count == 0 {
            return Tally {
                tuples: other.tuples,
                ..Tally::NONE
            };
        }
        Tally {
            tuples: other.tuples,
            count,
            mark,
            best: self.best + other.best,
            low: self.low + other.low,
            high: self.high + other.high,
        }
    }
}
