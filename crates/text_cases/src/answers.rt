use crate::dimensions::Part;
use crate::{commands, dimensions, models, numbers, texts, tokens};
use std::alloc::{AllocError, Global};
use std::fmt::{Debug, Write};

/// What a text gives.
#[derive(Drop)]
pub enum Answer {
    /// What is printed of what was read.
    Printed(Vec<u8>),
    /// The fault for which the text is refused.
    Refused(String),
}

impl Answer {
    /// The bytes to be written.
    pub fn into_bytes(self) -> Vec<u8> {
        match self {
            Answer::Printed(printed) => printed,
            Answer::Refused(fault) => fault.into_bytes(),
        }
    }
}

/// A refusal for this fault.
pub fn refused(alloc: Global, fault: &impl Debug) -> Result<Answer, AllocError> {
    Ok(Answer::Refused(format!(in alloc; "{fault:?}")?))
}

/// The lines that are shown of what was read. Out of memory is answered at the end alone, so that what adds lines has
/// one way out.
#[derive(Drop)]
pub struct Lines {
    text: String,
    outcome: Result<(), AllocError>,
}

impl Lines {
    pub fn new(alloc: Global) -> Lines {
        Lines {
            text: String::new(alloc),
            outcome: Ok(()),
        }
    }

    /// Adds a line with these values. It is the one place where values are formatted, since each place costs its proof.
    pub fn add(&mut self, values: &impl Debug) {
        if self.outcome.is_ok() {
            self.outcome = writeln!(self.text, "{values:?}");
        }
    }

    /// All the lines.
    pub fn answer(self) -> Result<Answer, AllocError> {
        self.outcome?;
        Ok(Answer::Printed(self.text.into_bytes()))
    }
}

/// The bytes of a name or of a text, if they are UTF-8.
pub fn shown(bytes: &[u8]) -> &str {
    std::str::from_utf8(bytes).unwrap_or("no UTF-8")
}

/// What a text of this kind gives.
///
/// - `tokens`: of any is shown of each token its kind, first byte, length and line, and what a Text means; the
/// first fault, twice, and its line
/// - `names`: of a name a line is shown the name and its key
/// - `numbers`: of an operation a line is shown its result
/// - `dim`: of a block of a dimension is shown the block, printed
/// - `elements`: of a block, and names is shown its name, line and an order; its elements with their lines and
/// components; its attributes; how many tokens it has; and of each name behind it, its element and the text that each
/// element has under it
/// - `weights`: of a block is shown the greatest coefficient; of each element how many leaves it has, the first four,
/// and the coefficients of 0 to 3 and of 1,000
/// - `model`: of a model is shown the model, printed
/// - `lines`: of a model is shown the lines of its dimensions, cubes with their rules and order, and scripts
/// - `space`: of a model is shown how many cubes, dimensions and cells; of each cube its dimensions, cells and first
/// cell; the first 32 cells; the numbers of some places; the cube and the dimension of each script's name
/// - `rules`: of rules is shown the rules, printed
/// - `trees`: of rules is shown the formulas as they are kept
/// - `user`: of commands of a user is shown the commands, numbers in millionths
/// - `user after N`: of the same, behind N commands of other users is shown the same
pub fn answer_to(alloc: Global, kind: &str, text: &[u8]) -> Result<Answer, AllocError> {
    match kind {
        "tokens" => tokens::tokens(alloc, text),
        "names" => numbers::names(alloc, text),
        "numbers" => numbers::numbers(alloc, text),
        "dim" => dimensions::block(alloc, text, Part::Text),
        "elements" => dimensions::block(alloc, text, Part::Elements),
        "weights" => dimensions::block(alloc, text, Part::Weights),
        "model" => texts::model(alloc, text),
        "lines" => models::lines(alloc, text),
        "space" => models::space(alloc, text),
        "rules" => texts::rules(alloc, text),
        "trees" => texts::trees(alloc, text),
        "user" => commands::user(alloc, text, 0),
        _ => match kind.strip_prefix("user after ") {
            Some(before) => commands::user(
                alloc,
                text,
                before
                    .parse::<u32>()
                    .unwrap_or(0)
                    .min(user_text::MAX_COMMANDS),
            ),
            None => refused(alloc, &"no kind of text"),
        },
    }
}
