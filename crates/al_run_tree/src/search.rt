ghost use Rattle.std.specs.Prelude.{◌≡◌, ◌+◌, ◌*◌, ◌≤◌, ◌<◌, option_map};
ghost use Rattle.al_run_tree.specs.Tree.{Tree, height, blocks};
ghost use Rattle.al_run_tree.specs.Order.{found, last_to, first_from};
ghost use Rattle.al_run_tree.specs.Runs.{first_gap};
ghost use Rattle.al_run_tree.specs.Table.{HasTree, IsTree, span_of};

use crate::node::{Extent, NIL, rounded_up};
use crate::nodes::Nodes;
use crate::steps::Steps;
use std::sync::ledger::Ledger;

/// The block that begins at a place.
pub fn find<L: Ledger>(nodes: &Nodes, top: u32, at: u32, steps: &mut Steps<L>) -> Option<Extent>
    requires { HasTree nodes.now top }
    ensures block { (s : Tree) → IsTree nodes.now top s → option_map span_of result ≡ found at s }
    ensures cost { (s : Tree) → IsTree nodes.now top s → steps.new ≤ steps.old + height s }
{
    if top == NIL {
        return None;
    }
    let node = nodes.read(top, steps);
    if at < node.at {
        return find(nodes, node.left, at, steps);
    }
    if node.at < at {
        return find(nodes, node.right, at, steps);
    }
    Some(node.block())
}

/// The last block that begins at an address or below.
pub fn last_to<L: Ledger>(nodes: &Nodes, top: u32, at: u32, steps: &mut Steps<L>) -> Option<Extent>
    requires { HasTree nodes.now top }
    ensures block { (s : Tree) → IsTree nodes.now top s → option_map span_of result ≡ last_to at s }
    ensures cost { (s : Tree) → IsTree nodes.now top s → steps.new ≤ steps.old + height s }
{
    if top == NIL {
        return None;
    }
    let node = nodes.read(top, steps);
    if at < node.at {
        return last_to(nodes, node.left, at, steps);
    }
    last_to(nodes, node.right, at, steps).or(Some(node.block()))
}

/// The first block that begins at an address or above.
pub fn first_from<L: Ledger>(
    nodes: &Nodes,
    top: u32,
    at: u32,
    steps: &mut Steps<L>,
) -> Option<Extent>
    requires { HasTree nodes.now top }
    ensures block { (s : Tree) → IsTree nodes.now top s → option_map span_of result ≡ first_from at s }
    ensures cost { (s : Tree) → IsTree nodes.now top s → steps.new ≤ steps.old + height s }
{
    if top == NIL {
        return None;
    }
    let node = nodes.read(top, steps);
    if node.at < at {
        return first_from(nodes, node.right, at, steps);
    }
    first_from(nodes, node.left, at, steps).or(Some(node.block()))
}

/// Where the first run begins that has room for so many bytes, at least 1, of those before, between and behind the blocks
/// from one address to another.
pub fn first_fit<L: Ledger>(
    nodes: &Nodes,
    top: u32,
    from: u32,
    until: u32,
    bytes: u32,
    steps: &mut Steps<L>,
) -> Option<u32>
    requires tree { HasTree nodes.now top }
    requires some { 0 < bytes }
    ensures place { (s : Tree) → IsTree nodes.now top s → result ≡ first_gap from (blocks s) until bytes }
    ensures cost { (s : Tree) → IsTree nodes.now top s → steps.new ≤ steps.old + 2 * height s }
{
    if top == NIL {
        return (u64::from(from) + u64::from(bytes) <= u64::from(until)).then_some(from);
    }
    let node = nodes.read(top, steps);
    if nodes.read(node.left, steps).has_room(from, node.at, bytes) {
        return first_fit(nodes, node.left, from, node.at, bytes, steps);
    }
    first_fit(
        nodes,
        node.right,
        rounded_up(node.at + node.size),
        until,
        bytes,
        steps,
    )
}
