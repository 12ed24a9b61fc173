ghost use Rattle.std.specs.Prelude.{◌<◌, length};

use crate::answers::{Answer, Lines, refused, shown};
use cube_lex::Tokens;
use dim_core::{Dimension, Name};
use dim_text::DimText;
use dim_weights::Weights;
use std::alloc::{AllocError, Global};

/// What is shown of a block.
#[derive(Clone, Copy)]
pub enum Part {
    /// The block, printed.
    Text,
    /// Its elements and attributes, and what the names behind it name.
    Elements,
    /// The leaves that count in each of its elements, and how much some elements do.
    Weights,
}

/// A part of a block.
pub fn block(alloc: Global, text: &[u8], part: Part) -> Result<Answer, AllocError> {
    let (tokens, _fault) = cube_lex::tokens_until(alloc, text)?;
    match dim_text::read(alloc, &tokens, 0) {
        Ok((block, next)) => match part {
            Part::Text => printed(alloc, &block),
            Part::Elements => elements(alloc, &tokens, &block, next),
            Part::Weights => weights(alloc, block.dimension()),
        },
        Err(fault) => refused(alloc, &fault),
    }
}

fn printed(alloc: Global, block: &DimText) -> Result<Answer, AllocError> {
    let mut out = Vec::new(alloc);
    dim_text::print(alloc, block, &mut out)?;
    Ok(Answer::Printed(out))
}

fn elements(
    alloc: Global,
    tokens: &Tokens<'_>,
    block: &DimText,
    next: usize,
) -> Result<Answer, AllocError> {
    let mut lines = Lines::new(alloc);
    add_elements(&mut lines, block);
    lines.add(&next);
    for i in next..tokens.len() {
        add_named(alloc, &mut lines, block.dimension(), tokens, i)?;
    }
    lines.answer()
}

fn add_elements(lines: &mut Lines, block: &DimText) {
    let dimension = block.dimension();
    let name = shown(dimension.name().shown());
    lines.add(&(name, block.head().line, dimension.order()));
    for element in 0..dimension.len() {
        add_element(lines, block, element);
    }
    for attribute in dimension.attributes() {
        let name = shown(attribute.name.shown());
        lines.add(&(attribute.element, name, shown(attribute.text.as_slice())));
    }
}

fn add_element(lines: &mut Lines, block: &DimText, element: u32)
    requires { element < length block.now.dimension.elements }
{
    let dimension = block.dimension();
    let name = shown(dimension.name_of(element).shown());
    let (line, is_leaf) = (block.position(element).line, dimension.is_leaf(element));
    lines.add(&(element, name, line, is_leaf, dimension.components(element)));
}

// The element that a token names, and the text that each element has under that name.
fn add_named(
    alloc: Global,
    lines: &mut Lines,
    dimension: &Dimension,
    tokens: &Tokens<'_>,
    i: usize,
) -> Result<(), AllocError>
    requires { i < length tokens.now.lexemes }
{
    let piece = cube_lex::unquoted(alloc, tokens.piece(i))?;
    let Ok(name) = Name::new(alloc, &piece) else {
        return Ok(());
    };
    let mut texts = Vec::new(alloc);
    for element in 0..dimension.len() {
        texts.push(shown(dimension.attribute(element, &name)))?;
    }
    lines.add(&(shown(name.shown()), dimension.index_of(&name), texts));
    Ok(())
}

fn weights(alloc: Global, dimension: &Dimension) -> Result<Answer, AllocError> {
    match Weights::of(alloc, dimension) {
        Ok(weights) => {
            let mut lines = Lines::new(alloc);
            add_each_weights(&mut lines, &weights, dimension.len());
            lines.answer()
        }
        Err(fault) => refused(alloc, &fault),
    }
}

fn add_each_weights(lines: &mut Lines, weights: &Weights, elements: u32) {
    lines.add(&weights.greatest());
    for element in 0..elements {
        if (element as usize) < weights.len() {
            add_weights(lines, weights, element);
        }
    }
}

fn add_weights(lines: &mut Lines, weights: &Weights, element: u32)
    requires { element < length weights.now }
{
    let leaves = weights.leaves(element);
    let coefficients = [
        weights.coef(element, 0),
        weights.coef(element, 1),
        weights.coef(element, 2),
        weights.coef(element, 3),
        weights.coef(element, 1_000),
    ];
    let first = &leaves[..leaves.len().min(4)];
    lines.add(&(element, leaves.len(), first, coefficients));
}
