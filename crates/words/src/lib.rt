//! The words of a rule, and the names of posts and signals.
#![tactic(auto)]

mod cutting;
mod laws;
mod name;
mod named;
mod naming;
mod word;
mod wordlist;

pub use cutting::ForeignByte;
pub use laws::words_mean;
pub use name::{Name, NoName};
pub use named::{Named, is_among, place_of};
pub use naming::{NAME_BYTES, is_name, is_name_byte};
pub use word::{Connective, Leaf, Word};
pub use wordlist::{MOST_WORDS, WordList};
