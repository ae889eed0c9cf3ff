ghost use Rattle.std.specs.Prelude.{◌≡◌, ◌+◌, ◌*◌, ◌≤◌, IsSome, false};
ghost use Rattle.al_run_tree.specs.Tree.{Tree, height, is_leaf, uses};
ghost use Rattle.al_run_tree.specs.Balance.{inserted, first_out, merged, taken_out};
ghost use Rattle.al_run_tree.specs.Order.{found};
ghost use Rattle.al_run_tree.specs.Table.{HasPlace, HasBlock, HasSome, HasTwo, AreTwo, IsTree, IsNow, IsOut, span_of};

use crate::balance::balance;
use crate::node::{Extent, NIL};
use crate::nodes::Nodes;
use crate::steps::Steps;
use std::sync::ledger::Ledger;

/// What taking out a block leaves: the index of its node, the block, and the index of the top node of the others.
#[derive(Clone, Copy)]
pub struct Taken {
    pub index: u32,
    pub block: Extent,
    pub rest: u32,
}

/// Puts a block into the node of an index, behind the blocks that do not begin past it. It gives the index of the top node.
pub fn insert<L: Ledger>(
    nodes: &mut Nodes,
    top: u32,
    new: u32,
    block: Extent,
    steps: &mut Steps<L>,
) -> u32
    requires { HasPlace nodes.old top new (span_of block) }
    ensures tree { (s : Tree) → IsTree nodes.old top s → uses new s ≡ 0 → IsNow nodes.old nodes.new result (inserted new (span_of block) s) }
    ensures cost { (s : Tree) → IsTree nodes.old top s → steps.new ≤ steps.old + (3 + 15 * height s) }
{
    if top == NIL {
        nodes.join(new, block, NIL, NIL, steps);
        return new;
    }
    let node = nodes.read(top, steps);
    if block.at < node.at {
        let left = insert(nodes, node.left, new, block, steps);
        return balance(nodes, top, node.block(), left, node.right, steps);
    }
    let right = insert(nodes, node.right, new, block, steps);
    balance(nodes, top, node.block(), node.left, right, steps)
}

// Takes out the first block; there is one.
fn first_out<L: Ledger>(nodes: &mut Nodes, top: u32, steps: &mut Steps<L>) -> Taken
    requires { HasSome nodes.old top }
    ensures tree { (s : Tree) → IsTree nodes.old top s → is_leaf s ≡ false → IsOut nodes.old nodes.new result.index (span_of result.block) result.rest (first_out s) }
    ensures cost { (s : Tree) → IsTree nodes.old top s → steps.new ≤ steps.old + 15 * height s }
{
    let node = nodes.read(top, steps);
    if node.left == NIL {
        return Taken {
            index: top,
            block: node.block(),
            rest: node.right,
        };
    }
    let out = first_out(nodes, node.left, steps);
    let rest = balance(nodes, top, node.block(), out.rest, node.right, steps);
    Taken { rest, ..out }
}

// Joins the two sides of a block that is taken out: the first block on the right takes its place.
fn merge<L: Ledger>(nodes: &mut Nodes, left: u32, right: u32, steps: &mut Steps<L>) -> u32
    requires { HasTwo nodes.old left right }
    ensures tree { (l r : Tree) → AreTwo nodes.old left right l r → IsNow nodes.old nodes.new result (merged l r) }
    ensures cost { (l r : Tree) → AreTwo nodes.old left right l r → steps.new ≤ steps.old + (14 + 15 * height r) }
{
    if right == NIL {
        return left;
    }
    let out = first_out(nodes, right, steps);
    balance(nodes, out.index, out.block, left, out.rest, steps)
}

/// Takes out the block that begins at a place; there is one.
pub fn take_out<L: Ledger>(nodes: &mut Nodes, top: u32, at: u32, steps: &mut Steps<L>) -> Taken
    requires { HasBlock nodes.old top at }
    ensures tree { (s : Tree) → IsTree nodes.old top s → IsSome (found at s) → IsOut nodes.old nodes.new result.index (span_of result.block) result.rest (taken_out at s) }
    ensures cost { (s : Tree) → IsTree nodes.old top s → steps.new ≤ steps.old + 15 * height s }
{
    let node = nodes.read(top, steps);
    if at < node.at {
        let out = take_out(nodes, node.left, at, steps);
        let rest = balance(nodes, top, node.block(), out.rest, node.right, steps);
        return Taken { rest, ..out };
    }
    if node.at < at {
        let out = take_out(nodes, node.right, at, steps);
        let rest = balance(nodes, top, node.block(), node.left, out.rest, steps);
        return Taken { rest, ..out };
    }
    let rest = merge(nodes, node.left, node.right, steps);
    Taken {
        index: top,
        block: node.block(),
        rest,
    }
}
