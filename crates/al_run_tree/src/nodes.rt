ghost use Rattle.std.specs.Prelude.{◌≡◌, ◌+◌, ◌<◌, length, slice_set, replicate, IfOk};
ghost use Rattle.al_run_tree.specs.Tree.{Tree, Branch};
ghost use Rattle.al_run_tree.specs.Runs.{blank};
ghost use Rattle.al_run_tree.specs.Table.{cell, span_of, HasSides, AreSides, Became};

use crate::node::{Extent, Node};
use crate::steps::Steps;
use al_base::NoMemory;
use std::alloc::Global;
use std::marker::Model;
use std::sync::ledger::Ledger;

/// A table of nodes. Contracts see it as their list.
#[derive(Drop)]
pub struct Nodes {
    nodes: Vec<Node>,
}

impl Model for Nodes {
    ghost use Rattle.std.specs.Prelude.{List};
    ghost use Rattle.al_run_tree.specs.declared.node.Node.{Node};

    ghost Value = { List Node };

    ghost view = { λ t. t.nodes.items };
}

impl Nodes {
    /// A table of so many nodes without blocks.
    pub fn new(alloc: Global, count: usize) -> Result<Nodes, NoMemory>
        ensures { IfOk result (λ t. t ≡ replicate count blank) }
    {
        Ok(Nodes {
            nodes: vec![in alloc; Node::blank(); count]?,
        })
    }

    /// The node of an index.
    pub fn read<L: Ledger>(&self, index: u32, steps: &mut Steps<L>) -> Node
        requires { index < length self.now }
        ensures node { result ≡ cell self.now index }
        ensures cost { steps.new ≡ steps.old + 1 }
    {
        steps.tick();
        self.nodes[index as usize]
    }

    /// Puts a node at an index.
    pub fn write<L: Ledger>(&mut self, index: u32, node: Node, steps: &mut Steps<L>)
        requires { index < length self.old }
        ensures written { self.new ≡ slice_set self.old index node }
        ensures cost { steps.new ≡ steps.old + 1 }
    {
        steps.tick();
        self.nodes[index as usize] = node;
    }

    // Joins two trees by a block in the node of an index.
    pub(crate) fn join<L: Ledger>(
        &mut self,
        index: u32,
        block: Extent,
        left: u32,
        right: u32,
        steps: &mut Steps<L>,
    )
        requires { HasSides self.old index (span_of block) left right }
        ensures tree { (l r : Tree) → AreSides self.old index (span_of block) left right l r → Became self.old self.new (Branch l index (span_of block) r) }
        ensures cost { steps.new ≡ steps.old + 3 }
    {
        let low = self.read(left, steps);
        let high = self.read(right, steps);
        self.write(index, Node::over(left, &low, block, right, &high), steps);
    }
}
