ghost use Rattle.std.specs.Prelude.{◌≡◌, IfOk, IfSome, IsTrue, count_by, option_map};
ghost use Rattle.cube_lex.specs.Bytes.{is_quote};
ghost use Rattle.rule_printer.specs.Writable.{is_quotable, is_writable};
ghost use Rattle.rule_tree.specs.declared.tree.Tree.TheVariants as trees;
ghost use Rattle.feed_print.specs.FeederTexts.{fits, name_text};

use dim_name::{Name, NameFault};
use lists::ListOf;
use rule_tree::Tree;
use std::alloc::{AllocError, Global};

/// The most bytes of a token.
const MAX_TOKEN_BYTES: usize = 1024;

fn count_quotes(bytes: &[u8]) -> usize
    ensures { result ≡ count_by is_quote bytes.now }
{
    bytes.iter().filter(|byte| **byte == b'\'').count()
}

/// Whether a name fits in a token, with its quotes.
pub fn fits(name: &Name) -> bool
    ensures fits { result ≡ fits name.now }
    ensures quotable { IsTrue result → IsTrue (is_quotable name.now) }
{
    let bytes = name.shown();
    if bytes.len() > MAX_TOKEN_BYTES {
        return false;
    }
    bytes.len() + count_quotes(bytes) + 2 <= MAX_TOKEN_BYTES
}

/// The same name once more.
pub fn copy_of(alloc: Global, name: &Name) -> Result<Name, AllocError>
    ensures { IfOk result (λ copy. copy ≡ name.now) }
{
    match Name::new(alloc, name.shown()) {
        Ok(copy) => Ok(copy),
        Err(NameFault::Memory) => Err(AllocError),
        Err(NameFault::NotAName) => unreachable!(),
    }
}

/// A name as a quoted text.
pub fn quoted_text(alloc: Global, name: &Name) -> Result<Tree, AllocError>
    ensures { IfOk result (λ tree. tree ≡ trees.Text name.now) }
{
    let bytes = Vec::from_slice(alloc, name.shown())?;
    Ok(Tree::Text(ListOf::new(bytes)))
}

/// The same, where it fits in a token.
pub fn name_text(alloc: Global, name: &Name) -> Result<Option<Tree>, AllocError>
    ensures text { IfOk result (λ found. found ≡ name_text name.now) }
    ensures writable { IfOk result (λ found. IfSome found (λ tree. IsTrue (is_writable tree))) }
{
    if !fits(name) {
        return Ok(None);
    }
    let tree = quoted_text(alloc, name)?;
    Ok(Some(tree))
}
