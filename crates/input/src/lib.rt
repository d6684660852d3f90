// What the programs read from an input, as from standard input. Nothing public has a `requires`. What comes is fixed by no argument, so that
// the `ensures` says how many bytes of the room count, and not which they are: this is the one public function that allows more than one
// outcome.
//     Input          how many bytes came, and whether the input could be read
//     read_input     the input, at the start of a room
#![tactic(auto)]

mod reading;

pub use reading::{Input, read_input};
