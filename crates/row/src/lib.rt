// A row of replies: its form, the answers that come first, the words among them, their bytes and their status bits.
#![tactic(auto)]

pub mod reading;
pub mod tops;
pub mod words;

pub use reading::{gathered, read_row};
pub use tops::{TopBits, top_bits};
pub use words::{WordsRead, is_word_at, pass_words, read_word, read_words};
