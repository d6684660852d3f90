// The words of a line, one after the other. Cites `specs/Words.antt`.
//     add_weight       a weight, with a minus sign where it is negative
//     add_count        a count, or `many`
//     add_position     ` at ` and where a record or a line stands
//     add_place        that, for the refusals that tell it
//     add_refused      the words of a refusal, to the end of the line
//     refused_line     the line of a refusal
//     tree_line        the line of a tree
ghost use Rattle.std.specs.Prelude.{◌≡◌, [], ◌++◌};
ghost use Rattle.std.specs.Prelude.{Err};
ghost use Rattle.answers.specs.Refusal.{number_of, position_of, sent_of};
ghost use Rattle.shapes.specs.Characters.{characters};
ghost use Rattle.shapes.specs.Decimal.{decimal};
ghost use Rattle.texts.specs.Text.{holding, with_bytes};
ghost use Rattle.report.specs.Words.{signed, count_word, place_word, refused_words, refused_line, tree_line};

use answers::{Refusal, number_of};
use itoa::Buffer;
use texts::{Text, add, add_decimal, empty};

// A weight at the end of a text.
#[tactic(auto, using(crate::proofs::Laws::Words::signed_printed))]
fn add_weight(text: Text, weight: i64) -> Text
    ensures { result ≡ with_bytes text (signed weight) }
{
    add(text, Buffer::new().format(weight).as_bytes())
}

// A count at the end of a text, or `many` where its mark is 1.
fn add_count(text: Text, count: u64, mark: u8) -> Text
    ensures { result ≡ with_bytes text (count_word count mark) }
{
    if mark == 1 {
        add(text, b"many")
    } else {
        add_decimal(text, count)
    }
}

// ` at ` and a position.
#[tactic(auto, using(texts::proofs::Laws::with_joined))]
fn add_position(text: Text, position: usize) -> Text
    ensures { result ≡ with_bytes text (characters " at " ++ decimal position) }
{
    add_decimal(add(text, b" at "), position as u64)
}

// The position of a refusal, if it tells one.
#[tactic(auto, using(texts::proofs::Laws::with_nil))]
fn add_place(text: Text, refusal: Refusal) -> Text
    ensures { result ≡ with_bytes text (place_word (number_of refusal) (position_of refusal)) }
{
    match refusal {
        Refusal::BadRecord(record) | Refusal::Repeated(record) => add_position(text, record),
        Refusal::BadSheet(line) => add_position(text, line),
        _ => text,
    }
}

// The words of a refusal at the end of a text, with the line feed.
#[tactic(auto, using(texts::proofs::Laws::with_joined))]
pub(crate) fn add_refused(text: Text, refusal: Refusal) -> Text
    ensures { result ≡ with_bytes text (refused_words (sent_of (Err refusal))) }
{
    let numbered = add_decimal(add(text, b"refused "), number_of(refusal));
    add(add_place(numbered, refusal), b"\n")
}

// The line of a refusal.
#[tactic(auto, using(texts::proofs::Laws::with_joined))]
pub(crate) fn refused_line(degree: u32, refusal: Refusal) -> Text
    ensures { result ≡ with_bytes (holding []) (refused_line degree (sent_of (Err refusal))) }
{
    let start = add(add_decimal(empty(), u64::from(degree)), b" ");
    add_refused(start, refusal)
}

// The line of a tree.
#[tactic(auto, using(texts::proofs::Laws::with_joined))]
pub(crate) fn tree_line(degree: u32, count: u64, mark: u8, best: i64, text: &[u8]) -> Text
    ensures { result ≡ with_bytes (holding []) (tree_line degree count mark best text.now) }
{
    let start = add(add_decimal(empty(), u64::from(degree)), b" ");
    let counted = add(add_count(start, count, mark), b" ");
    let weighed = add(add_weight(counted, best), b" ");
    add(add(weighed, text), b"\n")
}
