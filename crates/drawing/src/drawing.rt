// The tree of a table as a list of clusters and as Newick text. Cites `specs/Draw.antt`.
//     put_clusters     clusters at the start of a room
//     tree             the clusters, ascending, into a room
//     DrawnText        what is drawn as a text
//     drawn_text       the text, by value
//     text             the text, into a room
ghost use Rattle.std.specs.Prelude.{◌≡◌, ◌++◌, ◌≤◌, length, drop};
ghost use Rattle.laws.specs.Limits.{narrow};
ghost use Rattle.answers.specs.Outcome.{outcome_of};
ghost use Rattle.drawing.specs.Draw.{draw_tree, drawn_text_of, drawn_text, draw_text};
ghost use Rattle.drawing.specs.Gathered.{Narrow};

use crate::writing::text_of;
use answers::{Answer, Refusal};
use kept::Table;
use members::drawn_tree;
use texts::{Text, put};

// Clusters as 32-bit numbers at the start of a room, each made narrower: no method of slices does that.
#[tactic(auto, using(crate::proofs::Laws::Copied::copied_more, crate::proofs::Laws::Copied::narrow_at))]
fn put_clusters(clusters: &[u64], room: &mut [u32])
    requires clusters_in_bounds { length clusters.now ≤ length room.old }
    requires narrow { Narrow clusters.now }
    ensures { room.new ≡ clusters.now ++ drop (length clusters.now) room.old }
{
    for (i, &cluster) in clusters.iter().enumerate() {
        room[i] = cluster as u32;
    }
}

// The clusters of the tree that the leaf set's row marks, ascending, at the start of a room counted in numbers; the answer tells how many.
// Of a built table it is the first heaviest. Refused 8 (fitness), 7, 8 (marks), 11 in that order, and the room is then left as it was.
#[tactic(auto, using(crate::proofs::Laws::Draw::drawn_fits))]
pub fn tree(t: Table, room: &mut [u32]) -> Answer
    ensures { outcome_of result room.new ≡ draw_tree narrow t room.old }
{
    let drawn = drawn_tree(t)?;
    let size = drawn.size;
    if room.len() < size {
        return Err(Refusal::NoRoom);
    }
    put_clusters(&drawn.clusters[..size], room);
    Ok(size)
}

// What is drawn of a table as a text: the leaf set's row, and the text of its members.
#[derive(Clone, Copy)]
pub struct DrawnText {
    pub row: usize,
    pub text: Text,
}

// The Newick text of the same tree. Refused 8 (fitness), 7, 8 (marks) in that order.
#[tactic(auto, using(crate::proofs::Laws::Draw::drawn_fits, crate::proofs::Laws::Draw::drawn_row))]
pub fn drawn_text(t: Table) -> Result<DrawnText, Refusal>
    ensures { drawn_text_of result ≡ drawn_text narrow t }
{
    let drawn = drawn_tree(t)?;
    let text = text_of(&drawn.clusters[..drawn.size], t.clusters[drawn.row]);
    Ok(DrawnText {
        row: drawn.row,
        text,
    })
}

// The same text at the start of a room counted in bytes; the answer tells how many. Refused as `tree` is.
#[tactic(auto, using(crate::proofs::Laws::Draw::drawn_text_fits))]
pub fn text(t: Table, room: &mut [u8]) -> Answer
    ensures { outcome_of result room.new ≡ draw_text narrow t room.old }
{
    let drawn = drawn_text(t)?;
    put(&drawn.text.bytes[..drawn.text.size], room)
}
