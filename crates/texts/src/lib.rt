// Texts in the making: bytes and numbers in decimal, added one after another, and bytes put into a room. A text has room for the longest
// line that `besttree` prints; what there is no room for is left out, so that no byte that is added is refused. Nothing public has a
// `requires`, and each `ensures` is one equation to a definition of `specs/`.
//     Text            bytes, and how many of them there are
//     empty           a text of no bytes
//     add             bytes at the end of a text
//     add_decimal     the figures of a number at the end of a text
//     put             bytes at the start of a room
#![tactic(auto)]

mod adding;
mod putting;
mod text;

pub use adding::{add, add_decimal};
pub use putting::put;
pub use text::{Text, empty};
