ghost use Rattle.script_reader.specs.Answers.{Answers};

use crate::fault::ScriptFault;
use crate::section::script_at;
use cube_lex::text_tokens;
use grammar::{Cursor, TextFault, answer_of_text};
use script_tree::{Excess, Script, begun};
use std::alloc::Global;

/// Reads a load script from its text.
pub fn parse(alloc: Global, text: &[u8]) -> Result<Script, ScriptFault>
    ensures { Answers text.now result }
{
    let tokens = text_tokens(text);
    let start = begun(tokens.left.again());
    let mut cursor = Cursor::new(tokens.left.again(), start);
    let read = script_at(alloc, &mut cursor);
    match answer_of_text(&tokens, read, &cursor) {
        Ok(script) => Ok(script),
        Err(TextFault::Memory) => Err(ScriptFault::Memory),
        Err(TextFault::Syntax(position)) => Err(ScriptFault::Syntax(position)),
        Err(TextFault::Refused(Excess::UnknownFunction(position))) => {
            Err(ScriptFault::UnknownFunction(position))
        }
        Err(TextFault::Refused(Excess::TooDeep(position))) => Err(ScriptFault::TooDeep(position)),
    }
}
