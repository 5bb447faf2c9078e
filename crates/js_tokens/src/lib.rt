//! Tokens, the words and punctuators of the grammar, and what names, strings and templates spell.
//!
//! Inside the repository a word or a punctuator is a variant; its number is for the surface alone.
#![tactic(auto)]

mod code_point;
mod cook;
mod fault;
mod piece;
mod punctuator;
mod readable;
mod text;
mod token;
mod word;

pub use code_point::{
    byte_at, char_len, continues_name, first_char, is_ascii_part, is_ascii_start, starts_name,
};
pub use cook::{cook_string, cook_template, is_reserved, name_of, units};
pub use fault::CookFault;
pub use piece::{Piece, character, hex_digit, string_escape, template_escape, unicode_escape};
pub use punctuator::{PUNCTUATORS, Punctuator};
pub use readable::{Joined, Text};
pub use token::{Goal, TemplatePart, Token, TokenKind};
pub use word::{WORDS, Word};
