ghost use Rattle.std.specs.Prelude.{◌≡◌, ◌+◌, ◌≤◌};
ghost use Rattle.al_run_tree.specs.Tree.{Tree, height};
ghost use Rattle.al_run_tree.specs.Balance.{turned_right, turned_left, balanced};
ghost use Rattle.al_run_tree.specs.Table.{HasSides, AreSides, LeansLeft, LeansRight, IsNow, span_of};

use crate::node::Extent;
use crate::nodes::Nodes;
use crate::steps::Steps;
use std::sync::ledger::Ledger;

// Joins two trees by a block in the node of an index, with a turn where one side is two levels higher. It gives the
// index of the top node.
pub fn balance<L: Ledger>(
    nodes: &mut Nodes,
    index: u32,
    block: Extent,
    left: u32,
    right: u32,
    steps: &mut Steps<L>,
) -> u32
    requires { HasSides nodes.old index (span_of block) left right }
    ensures tree { (l r : Tree) → AreSides nodes.old index (span_of block) left right l r → IsNow nodes.old nodes.new result (balanced l index (span_of block) r) }
    ensures cost { steps.new ≤ steps.old + 14 }
{
    let low = nodes.read(left, steps).height;
    let high = nodes.read(right, steps).height;
    if high + 1 < low {
        return turn_right(nodes, index, block, left, right, steps);
    }
    if low + 1 < high {
        return turn_left(nodes, index, block, left, right, steps);
    }
    nodes.join(index, block, left, right, steps);
    index
}

// The same where the left side is higher.
fn turn_right<L: Ledger>(
    nodes: &mut Nodes,
    index: u32,
    block: Extent,
    left: u32,
    right: u32,
    steps: &mut Steps<L>,
) -> u32
    requires { LeansLeft nodes.old index (span_of block) left right }
    ensures tree { (l r : Tree) → AreSides nodes.old index (span_of block) left right l r → height r + 2 ≤ height l → IsNow nodes.old nodes.new result (turned_right l index (span_of block) r) }
    ensures cost { steps.new ≤ steps.old + 12 }
{
    let top = nodes.read(left, steps);
    let outer = nodes.read(top.left, steps).height;
    let inner = nodes.read(top.right, steps);
    if inner.height <= outer {
        nodes.join(index, block, top.right, right, steps);
        nodes.join(left, top.block(), top.left, index, steps);
        return left;
    }
    nodes.join(left, top.block(), top.left, inner.left, steps);
    nodes.join(index, block, inner.right, right, steps);
    nodes.join(top.right, inner.block(), left, index, steps);
    top.right
}

// The same where the right side is higher.
fn turn_left<L: Ledger>(
    nodes: &mut Nodes,
    index: u32,
    block: Extent,
    left: u32,
    right: u32,
    steps: &mut Steps<L>,
) -> u32
    requires { LeansRight nodes.old index (span_of block) left right }
    ensures tree { (l r : Tree) → AreSides nodes.old index (span_of block) left right l r → height l + 2 ≤ height r → IsNow nodes.old nodes.new result (turned_left l index (span_of block) r) }
    ensures cost { steps.new ≤ steps.old + 12 }
{
    let top = nodes.read(right, steps);
    let inner = nodes.read(top.left, steps);
    let outer = nodes.read(top.right, steps).height;
    if inner.height <= outer {
        nodes.join(index, block, left, top.left, steps);
        nodes.join(right, top.block(), index, top.right, steps);
        return right;
    }
    nodes.join(index, block, left, inner.left, steps);
    nodes.join(right, top.block(), inner.right, top.right, steps);
    nodes.join(top.left, inner.block(), index, right, steps);
    top.left
}
