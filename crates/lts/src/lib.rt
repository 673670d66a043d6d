// Labelled transition systems in whole seconds: labels, moves, the trait of
// transition sources with its meaning and its laws, and strong equivalence.
#![tactic(auto)]

pub mod equivalence;
pub mod label;
pub mod refusal;
pub mod source;
pub mod state;

pub use equivalence::strong_equivalence_is_an_equivalence;
pub use label::{is_label, is_visible, matches, partner};
pub use refusal::Refusal;
pub use source::{MOST_MOVES, MOST_STATES, Move, OutOfRange, Source};
pub use state::{Moves, State};
