// What every operation sends back: a success, or one refusal by its number in the rules (RULES 8). Nothing public has a `requires`, and
// each `ensures` is one equation to a definition of `specs/`, where the order of refusals and the outcome of an operation are said too.
//     Refusal, Answer             the refusals, and how an operation ended
//     number_of, position_of      the number of a refusal, and the position told with it
#![tactic(auto)]

mod refusal;

pub use refusal::{Answer, Refusal, number_of, position_of};
