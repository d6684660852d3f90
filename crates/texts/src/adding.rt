// Bytes and numbers added to a text. Cites `specs/Text.antt`.
//     add             bytes at the end of a text
//     add_decimal     the figures of a number at the end of a text
ghost use Rattle.std.specs.Prelude.{◌≡◌};
ghost use Rattle.shapes.specs.Decimal.{decimal};
ghost use Rattle.texts.specs.Text.{with_bytes};

use crate::text::{TEXT_CAP, Text};
use itoa::Buffer;

// Bytes at the end of a text, as many as it has room for.
#[tactic(auto, using(crate::proofs::Laws::with_copied))]
pub fn add(text: Text, bytes: &[u8]) -> Text
    ensures { result ≡ with_bytes text bytes.now }
{
    // Anyone may set the size: past the room it leaves none.
    let start = text.size.min(TEXT_CAP);
    let n = bytes.len().min(TEXT_CAP - start);
    let taken = &bytes[..n];
    let mut longer = text;
    longer.bytes[start..start + taken.len()].copy_from_slice(taken);
    longer.size += taken.len();
    longer
}

// The figures of `n` at the end of a text.
#[tactic(auto, using(crate::proofs::Laws::decimal_printed))]
pub fn add_decimal(text: Text, n: u64) -> Text
    ensures { result ≡ with_bytes text (decimal n) }
{
    add(text, Buffer::new().format(n).as_bytes())
}
