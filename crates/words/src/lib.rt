// Files as lists of 32-bit words: what one word says, or why it is refused, and
// the words that the bytes of a file make.
#![tactic(auto)]

pub mod cursor;
pub mod fault;
pub mod file;
mod kind;
mod operators;
pub mod term;
pub mod word;

pub use cursor::Cursor;
pub use fault::WordFault;
pub use file::{LONGEST, WordFile};
pub use term::{Delay, Operator};
pub use word::{MOST_OFFERS, MOST_ROWS, MOST_TENTHS, PlacedWord, RowHead, Word, decoding_is_exact};
