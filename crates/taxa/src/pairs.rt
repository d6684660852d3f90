// How two clusters lie to each other. Cites `specs/Cluster.antt` of the crate `laws`.
//     is_inside     every taxon of the first is one of the second's
//     is_strict     so, and they are not the same cluster
//     is_apart      no taxon is in both
ghost use Rattle.std.specs.Prelude.{◌≡◌};
ghost use Rattle.laws.specs.Cluster.{inside, strict, apart};

// Whether every taxon of `a` is one of `b`'s: so a cluster is inside itself, and no taxa are inside anything.
#[tactic(auto, unfolding(laws::specs::Cluster::inside))]
pub fn is_inside(a: u64, b: u64) -> bool
    ensures { result ≡ inside a b }
{
    a & b == a
}

// Whether `a` lies inside `b` and is another cluster.
#[tactic(auto, unfolding(laws::specs::Cluster::strict, laws::specs::Cluster::inside))]
pub fn is_strict(a: u64, b: u64) -> bool
    ensures { result ≡ strict a b }
{
    a != b && is_inside(a, b)
}

// Whether no taxon is in both.
#[tactic(auto, unfolding(laws::specs::Cluster::apart))]
pub fn is_apart(a: u64, b: u64) -> bool
    ensures { result ≡ apart a b }
{
    a & b == 0
}
