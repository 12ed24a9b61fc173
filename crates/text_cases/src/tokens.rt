use crate::answers::{Answer, Lines, shown};
use cube_lex::{Kind, Tokens};
use std::alloc::{AllocError, Global};

/// The tokens of a text, and its first fault, as both calls give it.
pub fn tokens(alloc: Global, text: &[u8]) -> Result<Answer, AllocError> {
    let (found, fault) = cube_lex::tokens_until(alloc, text)?;
    let mut lines = Lines::new(alloc);
    add_tokens(alloc, &mut lines, &found)?;
    let whole = cube_lex::tokens(alloc, text).err();
    lines.add(&(fault, whole, found.end().line));
    lines.answer()
}

fn add_tokens(alloc: Global, lines: &mut Lines, found: &Tokens<'_>) -> Result<(), AllocError> {
    for i in 0..found.len() {
        let kind = found.kind(i);
        lines.add(&(kind, found.start(i), found.piece(i).len(), found.line(i)));
        if kind == Kind::Text {
            lines.add(&shown(&found.text(alloc, i)?));
        }
    }
    Ok(())
}
