ghost use Rattle.std.specs.Prelude.{◌≡◌, ◌<◌, IfSome};
ghost use Rattle.least_ranks.specs.Graph.{Arrows};

use crate::Arrow;

/// A graph whose arrows are asked for, node by node and slot by slot. Its nodes are numbered from 0.
pub trait Graph {
    ghost arrows: { Self → Arrows };

    /// How many nodes there are.
    fn node_count(&self) -> u32
        ensures { result ≡ (arrows self.now).nodes };

    /// How many slots a node has. Each holds one arrow or none.
    fn slot_count(&self, node: u32) -> u32
        requires { node < (arrows self.now).nodes }
        ensures { result ≡ (arrows self.now).slots node };

    /// The arrow in this slot of the node, where there is one. It leads to a node of the graph.
    fn arrow(&self, node: u32, slot: u32) -> Option<Arrow>
        requires node { node < (arrows self.now).nodes }
        requires slot { slot < (arrows self.now).slots node }
        ensures arrow { result ≡ (arrows self.now).held node slot }
        ensures within { IfSome result (λ arrow. arrow.to < (arrows self.now).nodes) };
}
