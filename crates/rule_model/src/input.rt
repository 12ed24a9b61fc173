ghost use Rattle.std.specs.Prelude.{◌≡◌, length, map};
ghost use Rattle.cube_space.specs.Cells.{IsCell};
ghost use Rattle.rule_model.specs.Input.{is_input};
ghost use Rattle.rule_model.specs.Inside.Parts.{HaveSets, is_open_by};
ghost use Rattle.rule_model.specs.Inside.Words.{leaf_words};

use crate::model::Model;
use crate::parts::part_for;
use crate::places::place_of;
use crate::rules::Statement;
use crate::words::Words;
use cube_space::MAX_DIMENSIONS;

/// Whether a number can be stored in a cell: it is a leaf cell, and open for input. It is open where no statement
/// governs it, or the N part that governs it has `STET` in it, or has `CONTINUE` and the cell is open from the next
/// statement on (our own rule).
pub fn is_input(model: &Model, cell: u64) -> bool
    requires { IsCell model.now.space cell }
    ensures { result ≡ is_input model.now cell }
{
    if !model.space().is_leaf(cell) {
        return false;
    }
    let mut at = [0u32; MAX_DIMENSIONS];
    let (cube, len) = place_of(model, cell, &mut at);
    is_open(
        model.rules(cube).statements.as_slice(),
        model.words(cube),
        &at[..len],
    )
}

// Whether a leaf cell of these elements is open for input, by these statements and the words of their N parts.
fn is_open(statements: &[Statement], words: &[Words], elements: &[u32]) -> bool
    requires sets { HaveSets (length elements.now) statements.now }
    requires words { words.now ≡ map leaf_words statements.now }
    ensures { result ≡ is_open_by statements.now elements.now }
{
    'each: for place in 0..statements.len() {
        if part_for(&statements[place], elements, true).is_some() {
            let words = words[place];
            if words.stet || !words.rest {
                return words.stet;
            }
        }
    }
    true
}
