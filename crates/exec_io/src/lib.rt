//! The program's edges: the streams that it reads and writes, and the words that it is started with.
#![tactic(auto)]

mod input;
mod out;
mod uninterrupted;
mod words;
mod writing;

pub use input::{InputStream, ReadFault, read_document};
pub use out::{Out, OutFailed, Through};
pub use uninterrupted::Uninterrupted;
pub use words::{Settings, WordsFault, read_words, words_behind_the_name};
pub use writing::{put_pieces, write_text};
