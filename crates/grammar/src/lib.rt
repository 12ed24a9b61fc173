//! The engine that all exact texts are read with: grammars as relations, readers of the same shape, and one proof that
//! such a reader is exact.
//!
//! A parser of a whole text takes its tokens (`cube_lex::text_tokens`), reads them over a [`Cursor`] by functions that
//! follow its grammar line for line, and hands what they return to [`answer_of_text`], which counts a lexical fault as
//! a token that fits nothing. Lists are read by [`listed`] and [`repeated`], whatever their items.
#![tactic(auto)]

mod answer;
mod basic;
mod cursor;
mod list;
mod literals;
mod located;
mod stop;
mod values;
mod variables;
mod words;

pub use answer::{TextFault, answer_of_text};
pub use basic::{
    any_word_comes, end, is_sign, is_word, minus, number_comes, sign, sign_comes, text_comes, word,
    word_comes,
};
pub use cursor::{Cursor, Scan, Unwatched, position_left};
pub use list::{Item, RepeatedItem, further, listed, names, repeated, repeated_behind};
pub use literals::{file, money};
pub use located::{located_file, located_name, located_whole};
pub use stop::Stop;
pub use values::{name, text, whole};
pub use variables::{is_column, is_function_word, is_statement_word, is_variable};
pub use words::{any_word, capital_word};
