// How many taxa a cluster has. Cites `specs/Cluster.antt` of the crate `laws`.
//     size          the number of taxa
//     is_single     exactly one taxon
ghost use Rattle.std.specs.Prelude.{◌≡◌};
ghost use Rattle.laws.specs.Cluster.{size, single};

// The number of taxa.
pub fn size(c: u64) -> u32
    ensures { result ≡ size c }
{
    c.count_ones()
}

// Whether the cluster has exactly one taxon.
pub fn is_single(c: u64) -> bool
    ensures { result ≡ single c }
{
    size(c) == 1
}
