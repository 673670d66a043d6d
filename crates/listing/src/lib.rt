// The text that lists a file: its states and their moves, or its refusal.
#![tactic(auto)]

pub mod file;
pub mod text;

pub use file::file_text;
pub use text::{refusal_text, source_text};
