// The text of a tree. Cites `specs/Drawn.antt` of `shapes`, and `specs/Gathered.antt`.
//     child_with     the child of a part that has a taxon
//     add_comma      the comma before each child but the first
//     add_part       one part: its taxon, or its children in order of their smallest taxon
//     text_of        the whole text
ghost use Rattle.std.specs.Prelude.{◌≡◌, cond, ◌&&◌, ◌^◌, ◌<◌, max};
ghost use mathlib.Core.List.{Memᴰ as Mem};
ghost use Rattle.laws.specs.Cluster.{inside, strict};
ghost use Rattle.laws.specs.Limits.{narrow};
ghost use Rattle.shapes.specs.Drawn.{text_of};
ghost use Rattle.shapes.specs.Nests.{Nests, TreeOn};
ghost use Rattle.shapes.specs.Parts.{child_with, part_bytes};
ghost use Rattle.texts.specs.Text.{holding, with_bytes};
ghost use Rattle.drawing.specs.Gathered.{comma_before};

use cluster::{is_inside, is_single, is_strict, lowest};
use texts::{Text, add, add_decimal, empty};

// The largest member strictly inside `part` that has `taxon`; 0 where there is none.
fn child_with(xs: &[u64], part: u64, taxon: u32) -> u64
    requires { taxon < 64 }
    ensures { result ≡ child_with xs.now part taxon }
{
    let bit = 1u64 << taxon;
    xs.iter()
        .copied()
        .filter(|&k| is_strict(k, part) && is_inside(bit, k))
        .max()
        .unwrap_or(0)
}

// A comma, unless `left` is all of `part`, as before its first child.
#[tactic(auto, using(texts::proofs::Laws::with_nil, std::proofs::lemmas::Bool::Decides::nat_tests))]
fn add_comma(text: Text, part: u64, left: u64) -> Text
    ensures { result ≡ with_bytes text (comma_before part left) }
{
    if left == part { text } else { add(text, b",") }
}

// One part at the end of a text.
fn add_part(text: Text, xs: &[u64], part: u64) -> Text
    requires nests { Nests xs.now }
    requires mem { Mem part xs.now }
    ensures { result ≡ with_bytes text (part_bytes xs.now part) }
{
    if is_single(part) {
        return add_decimal(text, u64::from(lowest(part)));
    }
    let mut longer = add(text, b"(");
    let mut left = part;
    while left != 0 {
        longer = add_comma(longer, part, left);
        let child = child_with(xs, part, lowest(left));
        longer = add_part(longer, xs, child);
        left -= child;
    }
    add(longer, b")")
}

// The text of the tree `xs` on `top`.
pub(crate) fn text_of(xs: &[u64], top: u64) -> Text
    requires tree_on { TreeOn xs.now top }
    requires top_bound { top < 2 ^ narrow.taxa }
    ensures { result ≡ holding (text_of xs.now top) }
{
    add(add_part(empty(), xs, top), b";")
}
