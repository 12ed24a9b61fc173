ghost use Rattle.std.specs.Prelude.{◌≡◌, ◌<◌, ◌∷◌, [], ◌++◌, IsTrue, IfOk, OnOk, codes};
ghost use Rattle.std.specs.List.{list_all};
ghost use Rattle.cube_lex.specs.Parts as parts;
ghost use Rattle.cube_lex.specs.Written.{Spaces, sign_token, word_token};
ghost use Rattle.rule_printer.specs.Spelled as spelled;
ghost use Rattle.rule_printer.specs.Inside.Spine.{Spine};
ghost use Rattle.rule_printer.specs.Spelled.{written, written_at, tree_spelled, listed_spelled};
ghost use Rattle.rule_printer.specs.Writable.{is_writable, is_short_word};

use crate::parts::{
    write_bracket, write_current, write_money, write_separator, write_short_word, write_text,
};
use cube_lex::{write_sign, write_word};
use rule_tree::{Tree, TreeOp};
use std::alloc::{AllocError, Global};

// How tightly an operator binds among those of its sort.
fn rank_of(op: TreeOp) -> u8
    ensures { result ≡ spelled.rank_of op }
{
    match op {
        TreeOp::Or | TreeOp::Add | TreeOp::Sub => 0,
        TreeOp::And | TreeOp::Mul | TreeOp::Div | TreeOp::DivSafe => 1,
        TreeOp::Equal | TreeOp::Unequal | TreeOp::Less => 3,
        TreeOp::Greater | TreeOp::AtMost | TreeOp::AtLeast => 3,
        TreeOp::Same | TreeOp::Other => 3,
    }
}

// How tightly the left side of an operator must bind.
fn left_level(op: TreeOp) -> u8
    ensures { result ≡ spelled.left_level op }
{
    let rank = rank_of(op);
    if rank == 3 { 0 } else { rank }
}

// How tightly the right side of an operator must bind.
fn right_level(op: TreeOp) -> u8
    ensures { result ≡ spelled.right_level op }
{
    let rank = rank_of(op);
    if rank == 3 { 0 } else { rank + 1 }
}

fn write_operator(out: &mut Vec<u8>, op: TreeOp) -> Result<(), AllocError>
    ensures { OnOk result (Spaces out.old.items out.new.items (sign_token (spelled.sign_of op) ∷ [])) }
{
    match op {
        TreeOp::Or => write_sign(out, b"%"),
        TreeOp::And => write_sign(out, b"&"),
        TreeOp::Equal => write_sign(out, b"="),
        TreeOp::Unequal => write_sign(out, b"<>"),
        TreeOp::Less => write_sign(out, b"<"),
        TreeOp::Greater => write_sign(out, b">"),
        TreeOp::AtMost => write_sign(out, b"<="),
        TreeOp::AtLeast => write_sign(out, b">="),
        TreeOp::Same => write_sign(out, b"@="),
        TreeOp::Other => write_sign(out, b"@<>"),
        TreeOp::Add => write_sign(out, b"+"),
        TreeOp::Sub => write_sign(out, b"-"),
        TreeOp::Mul => write_sign(out, b"*"),
        TreeOp::Div => write_sign(out, b"/"),
        TreeOp::DivSafe => write_sign(out, b"\\"),
    }
}

// How tightly the root of a formula binds among formulas of its sort.
fn rank(tree: &Tree) -> u8
    ensures { result ≡ (written tree.now).rank }
{
    match tree {
        Tree::Number(_) => 3,
        Tree::Text(_) => 3,
        Tree::Current(_) => 3,
        Tree::Bracket(_) => 3,
        Tree::Stet => 3,
        Tree::Continue => 3,
        Tree::Call(_, _) => 3,
        Tree::Minus(_) => 2,
        Tree::Not(_) => 2,
        Tree::Binary(op, _, _) => rank_of(*op),
    }
}

// Writes a formula, in parentheses where it binds less tightly than it must.
#[cycle(trees)]
fn write_placed(alloc: Global, out: &mut Vec<u8>, tree: &Tree, level: u8) -> Result<(), AllocError>
    requires { IsTrue (is_writable tree.now) }
    ensures { OnOk result (Spaces out.old.items out.new.items (written_at level (written tree.now))) }
{
    if rank(tree) < level {
        write_sign(out, b"(")?;
        write_tree(alloc, out, tree)?;
        write_sign(out, b")")
    } else {
        write_tree(alloc, out, tree)
    }
}

/// Writes a formula, without parentheses round it.
#[cycle(trees)]
pub fn write_tree(alloc: Global, out: &mut Vec<u8>, tree: &Tree) -> Result<(), AllocError>
    requires { IsTrue (is_writable tree.now) }
    ensures { OnOk result (Spaces out.old.items out.new.items (tree_spelled tree.now)) }
{
    match tree {
        Tree::Number(money) => write_money(alloc, out, *money),
        Tree::Text(bytes) => write_text(out, bytes.as_slice()),
        Tree::Current(dim) => {
            write_sign(out, b"!")?;
            write_current(out, dim.shown())
        }
        Tree::Bracket(simples) => write_bracket(out, simples.as_slice()),
        Tree::Stet => write_word(out, b"STET"),
        Tree::Continue => write_word(out, b"CONTINUE"),
        Tree::Call(function, arguments) => {
            write_call(alloc, out, function.as_slice(), arguments.as_slice())
        }
        Tree::Minus(inner) => {
            write_sign(out, b"-")?;
            write_placed(alloc, out, inner.get(), 3)
        }
        Tree::Not(inner) => {
            write_sign(out, b"~")?;
            write_placed(alloc, out, inner.get(), 3)
        }
        Tree::Binary(op, left, right) => {
            write_left(alloc, out, left.get(), left_level(*op))?;
            write_operator(out, *op)?;
            write_placed(alloc, out, right.get(), right_level(*op))
        }
    }
}

// The operations of a level that stand inside one another on the left, from the outermost on, and what they begin with.
fn operations_of(
    alloc: Global,
    tree: &Tree,
    level: u8,
) -> Result<(&Tree, Vec<(TreeOp, &Tree)>), AllocError>
    ensures { IfOk result (λ found. Spine level tree.now found.1.items found.0.now) }
{
    let mut operations = Vec::new(alloc);
    let mut head = tree;
    'down: while let Tree::Binary(op, left, right) = head {
        if rank_of(*op) != level {
            break;
        }
        operations.push((*op, right.get()))?;
        head = left.get();
    }
    Ok((head, operations))
}

// Writes the left side of an operator, which must bind as tightly as the level. Its operations are written from the
// innermost on, one after another, since a formula may have a thousand of them.
#[cycle(trees)]
fn write_left(alloc: Global, out: &mut Vec<u8>, tree: &Tree, level: u8) -> Result<(), AllocError>
    requires writable { IsTrue (is_writable tree.now) }
    requires level { level < 2 }
    ensures { OnOk result (Spaces out.old.items out.new.items (written_at level (written tree.now))) }
{
    let (head, mut operations) = operations_of(alloc, tree, level)?;
    write_placed(alloc, out, head, level)?;
    'up: while let Some((op, right)) = operations.pop() {
        write_operator(out, op)?;
        write_placed(alloc, out, right, right_level(op))?;
    }
    Ok(())
}

// Writes a function and its arguments.
#[cycle(trees)]
fn write_call(
    alloc: Global,
    out: &mut Vec<u8>,
    function: &[u8],
    arguments: &[Tree],
) -> Result<(), AllocError>
    requires word { IsTrue (is_short_word function.now) }
    requires arguments { IsTrue (list_all is_writable arguments.now) }
    ensures { OnOk result
        (Spaces out.old.items out.new.items (word_token function.now ∷ sign_token (codes "(")
        ∷ (listed_spelled tree_spelled arguments.now ++ sign_token (codes ")") ∷ []))) }
{
    write_short_word(out, function)?;
    write_sign(out, b"(")?;
    write_trees(alloc, out, arguments)?;
    write_sign(out, b")")
}

/// Writes formulas, with a `,` between.
#[cycle(trees)]
pub fn write_trees(alloc: Global, out: &mut Vec<u8>, trees: &[Tree]) -> Result<(), AllocError>
    requires { IsTrue (list_all is_writable trees.now) }
    ensures { OnOk result (Spaces out.old.items out.new.items (listed_spelled tree_spelled trees.now)) }
{
    for index in 0..trees.len() {
        write_separator(out, index)?;
        write_tree(alloc, out, &trees[index])?;
    }
    Ok(())
}
