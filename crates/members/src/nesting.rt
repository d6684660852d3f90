// Whether a set of clusters is a tree. Cites `specs/Tree.antt` of the crate `trees`.
//     is_nested        whether two clusters are nested or apart
//     has_taxa         whether the set has each taxon of a cluster
//     nests            whether all are nested in or apart from one
//     are_nested       whether all are inside one, and any two nested or apart
//     has_between      whether one lies strictly between two
//     child_count      how many children a member has
//     are_few          whether no member of two or more taxa has too many
//     is_tree          all of it
ghost use Rattle.std.specs.Prelude.{◌≡◌, not, ◌&&◌, ◌||◌, ◌-◌, leb, length};
ghost use Rattle.laws.specs.Cluster.{inside, strict, nested, single, taxa};
ghost use Rattle.laws.specs.Limits.{narrow};
ghost use Rattle.laws.specs.Lists.{every, any, elem};
ghost use Rattle.trees.specs.Tree.{children, is_tree};

use cluster::{is_apart, is_inside, is_single, is_strict};

// Taxa that a cluster of this width can have.
const TAXA: u32 = 32;

// Whether one lies inside the other, or they share no taxon.
fn is_nested(a: u64, b: u64) -> bool
    ensures { result ≡ nested a b }
{
    is_inside(a, b) || is_inside(b, a) || is_apart(a, b)
}

// Whether each single taxon of `c` is one of them.
fn has_taxa(xs: &[u64], c: u64) -> bool
    ensures { result ≡ every (λ u. not (inside u c) || elem u xs.now) (taxa narrow.taxa) }
{
    (0..TAXA)
        .map(|taxon| 1u64 << taxon)
        .all(|u| !is_inside(u, c) || xs.contains(&u))
}

// Whether each is nested in or apart from `a`.
fn nests(xs: &[u64], a: u64) -> bool
    ensures { result ≡ every (λ b. nested a b) xs.now }
{
    xs.iter().all(|&b| is_nested(a, b))
}

// Whether all are inside `c`, and any two are nested or apart.
fn are_nested(xs: &[u64], c: u64) -> bool
    ensures { result ≡ every (λ a. inside a c && every (λ b. nested a b) xs.now) xs.now }
{
    xs.iter().all(|&a| is_inside(a, c) && nests(xs, a))
}

// Whether one of them lies strictly between `k` and `m`.
fn has_between(xs: &[u64], k: u64, m: u64) -> bool
    ensures { result ≡ any (λ l. strict l m && strict k l) xs.now }
{
    xs.iter().any(|&l| is_strict(l, m) && is_strict(k, l))
}

// How many children `m` has among them.
fn child_count(xs: &[u64], m: u64) -> usize
    ensures { result ≡ length (children xs.now m) }
{
    xs.iter()
        .filter(|&&k| is_strict(k, m) && !has_between(xs, k, m))
        .count()
}

// Whether each of two or more taxa has fewer children than the degree bound, of which 0 allows none either.
fn are_few(xs: &[u64], degree: u32) -> bool
    ensures { result ≡ every (λ m. single m || leb (length (children xs.now m)) (degree - 1)) xs.now }
{
    let most = degree.saturating_sub(1) as usize;
    xs.iter()
        .all(|&m| is_single(m) || child_count(xs, m) <= most)
}

// Whether the clusters are a tree on `top` for the degree bound, whatever they are.
#[tactic(auto, using(crate::proofs::Laws::TreeTest::is_tree_by))]
pub fn is_tree(clusters: &[u64], top: u64, degree: u32) -> bool
    ensures { result ≡ is_tree narrow.taxa degree top clusters.now }
{
    are_nested(clusters, top)
        && clusters.contains(&top)
        && has_taxa(clusters, top)
        && are_few(clusters, degree)
}
