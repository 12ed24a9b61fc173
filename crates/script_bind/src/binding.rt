ghost use Rattle.std.specs.Prelude.{◌≡◌, IfOk};
ghost use Rattle.script_bind.specs.Binding.{section_of, bound_of};

use crate::statements::statements_of;
use crate::variables::variables;
use script_bound::{BoundScript, Statement};
use script_tree::{Line, Script};
use sqlite_items::Items;
use std::alloc::{AllocError, Global};
use word_table::WordTable;

/// The statements of a section, which are numbered from 1.
#[tactic(auto, unfolding(crate::specs::Binding::section_of))]
fn section_of(
    alloc: Global,
    words: &WordTable,
    lines: &[Line],
) -> Result<Items<Statement>, AllocError>
    ensures { IfOk result (λ statements. statements ≡ section_of words.now lines.now) }
{
    let mut next = 1;
    statements_of(alloc, words, lines, &mut next)
}

/// The bound script of a script: its statements are numbered from 1 in each section, in the order of the text and with
/// those that stand in others, and its variables from 0, in the order in which they are first named.
pub fn bind(alloc: Global, script: &Script) -> Result<BoundScript, AllocError>
    ensures { IfOk result (λ bound. bound ≡ bound_of script.now) }
{
    let variables = variables(alloc, script)?;
    let prolog = section_of(alloc, &variables, script.prolog.lines.as_slice())?;
    let body = section_of(alloc, &variables, script.body.lines.as_slice())?;
    let epilog = section_of(alloc, &variables, script.epilog.lines.as_slice())?;
    Ok(BoundScript {
        variables: variables.into_words(),
        prolog,
        body,
        epilog,
    })
}
