// A caller's list of nodes, as it is filled from the front.
ghost use Rattle.std.specs.Prelude.{◌≡◌, ◌≤◌, length, [], ◌∷◌, OnErr};

use chart_model::node::Node;

// The caller's list, of which the first `filled` nodes are written.
#[derive(Drop)]
pub(crate) struct Listing<'a> {
    pub(crate) nodes: &'a mut [Node],
    pub(crate) filled: usize,
    ghost within: { filled ≤ length nodes.now },
}

impl<'a> Listing<'a> {
    ghost use Rattle.chart.specs.Walk.{Lists, SameList};

    // Writes one node more, where there is room.
    pub(crate) fn push(&mut self, node: Node) -> Result<(), NoRoom>
        ensures lists { Lists (node ∷ []) self.old self.new result }
        ensures same { SameList self.old self.new }
        ensures full { OnErr result (self.new.filled ≡ length self.new.nodes.now) }
    {
        if self.filled == self.nodes.len() {
            return Err(NoRoom);
        }
        self.nodes[self.filled] = node;
        self.filled += 1;
        Ok(())
    }
}

// Every node of the list is written.
#[derive(Clone, Copy, PartialEq, Eq, Debug)]
pub(crate) struct NoRoom;
