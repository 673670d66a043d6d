// Layers: a transition source made of others. Each layer is again a source, over
// any sources, so that layers can be piled.
#![tactic(auto)]

pub mod fence;
mod names;
pub mod pair;
pub mod rename;

pub use fence::Fence;
pub use names::NameSetFault;
pub use pair::Pair;
pub use pair::fault::PairFault;
pub use rename::Rename;
pub use rename::fault::RenameFault;
