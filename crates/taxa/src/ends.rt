// The largest and the smallest taxon of a cluster. Cites `specs/Cluster.antt` of the crate `laws`.
//     highest     the largest taxon
//     lowest      the smallest taxon
ghost use Rattle.std.specs.Prelude.{◌≡◌};
ghost use Rattle.laws.specs.Cluster.{highest, lowest};

// The number of the highest taxon that a cluster can have.
const LAST_TAXON: u32 = 63;

// The largest taxon, 0 where there is none. Taxon 0 is put in, which changes the answer of no cluster and spares a branch.
#[tactic(auto, using(crate::proofs::Leading::leading_le, crate::proofs::Leading::highest_is))]
pub fn highest(c: u64) -> u32
    ensures { result ≡ highest c }
{
    LAST_TAXON - (c | 1).leading_zeros()
}

// The smallest taxon, 64 where there is none.
pub fn lowest(c: u64) -> u32
    ensures { result ≡ lowest 64 c }
{
    c.trailing_zeros()
}
