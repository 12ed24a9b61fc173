ghost use Rattle.std.specs.Prelude.{◌≡◌, ◌*◌, ◌<◌, ◌≤◌, IfOk};
ghost use Rattle.cell_store.specs.Inside.Order.{EndsAt};
ghost use Rattle.cell_store.specs.Inside.Levels.{IsNode, entries_under};

use crate::order::{Placed, Stored};
use crate::part::Part;
use std::alloc::{AllocError, Global};
use std::sync::Arc;

/// A part that versions share.
#[derive(Drop)]
pub struct Node<T> {
    /// The cell of the last entry.
    pub last: u64,
    /// How many entries there are.
    pub count: usize,
    pub part: Arc<T>,
}

impl<T> Placed for Node<T> {
    ghost cell = { λ node. node.last };

    fn cell(&self) -> u64 {
        self.last
    }
}

/// The node of a part, of which `last` is the last cell.
pub fn node_of<E: Stored, T: Part<E>>(
    alloc: Global,
    last: u64,
    part: T,
) -> Result<Node<T>, AllocError>
    requires sized { T.is_sized part }
    requires least { T.half ≤ T.size part }
    requires most { T.size part < 2 * T.half }
    requires last { EndsAt E.cell last (T.entries part) }
    ensures entries { IfOk result (λ node. entries_under T.entries node ≡ T.entries part) }
    ensures node { IfOk result (λ node. IsNode E.cell T.entries T.is_sized T.size T.half node) }
{
    let count = part.count()?;
    let part = Arc::new(alloc, part)?;
    Ok(Node { last, count, part })
}

/// The same node, shared.
pub fn shared<E: Stored, T: Part<E>>(node: &Node<T>) -> Result<Node<T>, AllocError>
    requires { IsNode E.cell T.entries T.is_sized T.size T.half node.now }
    ensures entries { IfOk result (λ copy. entries_under T.entries copy ≡ entries_under T.entries node.now) }
    ensures node { IfOk result (λ copy. IsNode E.cell T.entries T.is_sized T.size T.half copy) }
{
    let part = Arc::try_clone(&node.part)?;
    Ok(Node {
        last: node.last,
        count: node.count,
        part,
    })
}
