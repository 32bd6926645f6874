//! The texts of queries and keys: bytes to tokens with their places, tokens to queries, and queries back to bytes.
#![tactic(auto)]

mod boxes;
mod class;
mod intervals;
mod lexeme;
mod line;
mod numbers;
mod parser;
mod printer;
mod reader;
mod scanner;
mod sets;
mod terminal;
mod text;

pub use class::ClassText;
pub use lexeme::{Kind, Lexeme};
pub use line::{LINE, PrintBuffer};
pub use parser::{one_meaning_for_text, one_meaning_for_tokens, parse, parse_tokens};
pub use printer::print;
pub use reader::first_of;
pub use scanner::{one_cut_for_text, scan};
pub use sets::set_texts_name_their_elements;
pub use text::{append, append_number, same_bytes};
