// Signed numbers and their bits in two's complement, of 32 bits (a word) and of 64 (a long). Nothing public has a
// `requires`, and each `ensures` is one equation to the library's own two's complement, `to_z` or `of_z`.
//     signed_of, unsigned_of               the signed number of a word, and back
//     signed_long_of, unsigned_long_of     the signed number of a long, and back
// The functions of a word and of a long stay apart, though they are alike: each is one call of the library, less than a trait over both has.
#![tactic(auto)]

mod longs;
mod words;

pub use longs::{signed_long_of, unsigned_long_of};
pub use words::{signed_of, unsigned_of};
