ghost use Rattle.std.specs.Prelude.{◌≡◌, ◌+◌, ◌*◌, ◌/◌, ◌<◌, ◌^◌, ◌-◌};
ghost use Rattle.al_run_tree.specs.Runs.{blank, first_with, gap_before, end_with, gap_behind, over, has_room, round_up};
ghost use Rattle.al_run_tree.specs.Table.{span_of};

use al_event::Block;

/// The index of no node.
pub const NIL: u32 = 0;

/// A block: the address of its first byte, its size in bytes, and its kind.
#[derive(Clone, Copy)]
pub struct Extent {
    pub at: u32,
    pub size: u32,
    pub kind: Block,
}

/// A node: a block, the indexes of the nodes on its two sides, and what it tells of the blocks from it down.
///
/// These are the most nodes on a way down, where the first block begins, the next multiple of 8 behind the last, and
/// the bytes of the widest run between two of them.
#[derive(Clone, Copy)]
pub struct Node {
    pub at: u32,
    pub size: u32,
    pub kind: Block,
    pub left: u32,
    pub right: u32,
    pub height: u32,
    pub first: u32,
    pub end: u32,
    pub widest: u32,
}

impl Node {
    // The node of no block.
    pub fn blank() -> Node
        ensures { result ≡ blank }
    {
        Node {
            at: 0,
            size: 0,
            kind: Block::Heap,
            left: NIL,
            right: NIL,
            height: 0,
            first: 0,
            end: 0,
            widest: 0,
        }
    }

    // Its block.
    pub fn block(&self) -> Extent
        ensures { result ≡ record { at = self.now.at; size = self.now.size; kind = self.now.kind } }
    {
        Extent {
            at: self.at,
            size: self.size,
            kind: self.kind,
        }
    }

    // A block over the nodes of its two sides, which have these indexes.
    pub fn over(left: u32, low: &Node, block: Extent, right: u32, high: &Node) -> Node
        requires low { block.at + block.size < 2 ^ 31 }
        requires left_short { low.now.height < 2 ^ 31 }
        requires right_short { high.now.height < 2 ^ 31 }
        ensures { result ≡ over left low.now (span_of block) right high.now }
    {
        let end = rounded_up(block.at + block.size);
        Node {
            at: block.at,
            size: block.size,
            kind: block.kind,
            left,
            right,
            height: low.height.max(high.height) + 1,
            first: first_with(low, block.at),
            end: end_with(high, end),
            widest: low
                .widest
                .max(gap_before(low, block.at))
                .max(gap_behind(high, end).max(high.widest)),
        }
    }

    // Whether so many bytes fit before, between or behind the blocks from here down.
    pub fn has_room(&self, from: u32, until: u32, bytes: u32) -> bool
        ensures { result ≡ has_room self.now from until bytes }
    {
        let bytes = u64::from(bytes);
        if self.height == 0 {
            return u64::from(from) + bytes <= u64::from(until);
        }
        u64::from(from) + bytes <= u64::from(self.first)
            || bytes <= u64::from(self.widest)
            || u64::from(self.end) + bytes <= u64::from(until)
    }
}

// Where the blocks from a node down begin, with those on its left.
fn first_with(low: &Node, at: u32) -> u32
    ensures { result ≡ first_with low.now at }
{
    if low.height == 0 { at } else { low.first }
}

// The run between the blocks on the left of a node and its own.
fn gap_before(low: &Node, at: u32) -> u32
    ensures { result ≡ gap_before low.now at }
{
    if low.height == 0 {
        0
    } else {
        at.saturating_sub(low.end)
    }
}

// Where the blocks from a node down end, with those on its right.
fn end_with(high: &Node, end: u32) -> u32
    ensures { result ≡ end_with high.now end }
{
    if high.height == 0 { end } else { high.end }
}

// The run between the block of a node and those on its right.
fn gap_behind(high: &Node, end: u32) -> u32
    ensures { result ≡ gap_behind high.now end }
{
    if high.height == 0 {
        0
    } else {
        high.first.saturating_sub(end)
    }
}

// The next multiple of 8.
pub fn rounded_up(at: u32) -> u32
    requires { at < 2 ^ 31 }
    ensures { result ≡ round_up at }
{
    at.div_ceil(8) * 8
}
