//! The tokens of the exact texts: model files, rule files, scripts and user files.
#![tactic(auto)]

mod fault;
mod found;
mod front;
mod left;
mod lexed;
mod lines;
mod pieces;
mod place;
mod position;
mod quoted;
mod reading;
mod signs;
mod text;
mod token;
mod written;

pub use fault::LexFault;
pub use left::TokensLeft;
pub use lexed::Tokens;
pub use lines::mark_len;
pub use pieces::{Piece, write_line, write_pieces};
pub use position::Position;
pub use quoted::unquoted;
pub use reading::{tokens, tokens_until};
pub use text::{TextTokens, text_tokens};
pub use token::{Kind, Token};
pub use written::{
    what_is_written_has_a_reading, what_is_written_is_read, write_line_end, write_number,
    write_quoted, write_sign, write_whole, write_word,
};
