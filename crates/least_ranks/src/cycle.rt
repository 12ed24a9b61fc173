ghost use Rattle.std.specs.Prelude.{◌≡◌, ◌<◌, ℕ, true, length, IfOk, IfSome, IfNone};
ghost use Rattle.least_ranks.specs.declared.arrow.Arrow.{Arrow};
ghost use Rattle.least_ranks.specs.Graph.{IsArrow, IsWalk, IsClosedWalk};
ghost use Rattle.least_ranks.specs.Inside.Sound.{LeadsTo};
ghost use Rattle.least_ranks.specs.Inside.Ways.{IsStrictTo, IsSeenUpTo, IsUnseen};

use crate::{Graph, Step};
use std::alloc::{AllocError, Global};

/// The closed walk that begins with a step to this node along a strict arrow, where a walk leads back.
pub fn closed_walk<G: Graph>(
    alloc: Global,
    graph: &G,
    step: Step,
    to: u32,
) -> Result<Vec<Step>, AllocError>
    requires strict { IsStrictTo (G.arrows graph.now) step to }
    requires within { to < (G.arrows graph.now).nodes }
    requires back { LeadsTo (G.arrows graph.now) to step.node }
    ensures { IfOk result (λ steps. IsClosedWalk (G.arrows graph.now) steps.items) }
{
    match way(alloc, graph, to, step.node)? {
        Some(mut steps) => {
            steps.insert(0, step)?;
            Ok(steps)
        }
        None => unreachable!(),
    }
}

// A walk from a node to another one, where there is one.
fn way<G: Graph>(
    alloc: Global,
    graph: &G,
    from: u32,
    to: u32,
) -> Result<Option<Vec<Step>>, AllocError>
    requires { from < (G.arrows graph.now).nodes }
    ensures found { IfOk result (λ found. IfSome found (λ steps. IsWalk (G.arrows graph.now) steps.items from to)) }
    ensures none { IfOk result (λ found. IfNone found (LeadsTo (G.arrows graph.now) from to → ⊥)) }
{
    let mut seen = vec![in alloc; false; graph.node_count() as usize]?;
    seen[from as usize] = true;
    let mut steps = Vec::new(alloc);
    let mut here = Step {
        node: from,
        slot: 0,
    };
    'steps: while here.node != to {
        match unseen_slot(graph, &seen, here) {
            Some((slot, next)) => {
                seen[next as usize] = true;
                steps.push(Step {
                    node: here.node,
                    slot,
                })?;
                here = Step {
                    node: next,
                    slot: 0,
                };
            }
            None => match steps.pop() {
                Some(step) => here = step,
                None => return Ok(None),
            },
        }
    }
    Ok(Some(steps))
}

// The first slot of a node, from this one on, whose arrow leads to a node that isn't seen, and that node.
fn unseen_slot<G: Graph>(graph: &G, seen: &[bool], here: Step) -> Option<(u32, u32)>
    requires whole { length seen.now ≡ (G.arrows graph.now).nodes }
    requires within { here.node < (G.arrows graph.now).nodes }
    requires before { IsSeenUpTo (G.arrows graph.now) seen.now here.node here.slot }
    ensures some { IfSome result (λ found. IsUnseen (G.arrows graph.now) seen.now here.node found.0 found.1) }
    ensures none { IfNone result (IsSeenUpTo (G.arrows graph.now) seen.now here.node
        ((G.arrows graph.now).slots here.node)) }
{
    for slot in here.slot..graph.slot_count(here.node) {
        if let Some(arrow) = graph.arrow(here.node, slot) {
            if !seen[arrow.to as usize] {
                return Some((slot, arrow.to));
            }
        }
    }
    None
}
