// The walk along origins that writes a reading: the nodes of a finished edge, in pre-order.
ghost use Rattle.std.specs.Prelude.{◌≡◌, Some, length, OnErr};
ghost use Rattle.std.specs.List.{slice_get};
ghost use Rattle.std.specs.Option.{option_to_list};
ghost use Rattle.chart_model.specs.Reading.{rule_at};
ghost use Rattle.chart.specs.Charts.{held};
ghost use Rattle.chart.specs.View.{IsFinished};

use crate::listing::{Listing, NoRoom};
use crate::table::Table;
use chart_model::edge::Edge;
use chart_model::node::{Kind, Node};
use chart_model::origin::Origin;
use chart_model::place::Place;

// A finished edge, by its place in a table.
#[derive(Clone, Copy)]
pub(crate) struct FinishedAt<'a> {
    pub(crate) table: &'a Table,
    pub(crate) at: u16,
    ghost finished: { IsFinished (held table.now) at },
}

impl<'a> FinishedAt<'a> {
    ghost use Rattle.chart.specs.Walk.{places_of, own_nodes, all_nodes, Lists, SameList};

    // Its place.
    fn place(&self) -> Place
        ensures { slice_get (places_of self.now) self.now.at ≡ Some result }
    {
        self.table.place(self.at)
    }

    // The rule of an active edge; 0 for a passive one, which nothing asks for.
    fn rule(&self) -> u8
        ensures { result ≡ rule_at (places_of self.now) self.now.at }
    {
        match self.place().edge {
            Edge::Passive { .. } => 0,
            Edge::Active { rule, .. } => rule,
        }
    }

    // The node of a passive edge; an active edge has none.
    fn own_node(&self) -> Option<Node>
        ensures { option_to_list result ≡ own_nodes self.now }
    {
        let table = self.table;
        let place = self.place();
        let Edge::Passive { from, to, .. } = place.edge else {
            return None;
        };
        let (kind, number) = match place.origin {
            Origin::Word(word) => (Kind::Word, word),
            Origin::Empty(rule) => (Kind::Rule, rule),
            Origin::First { rule, .. } => (Kind::Rule, rule),
            Origin::Next { active, .. } => (Kind::Rule, FinishedAt { table, at: active }.rule()),
        };
        Some(Node {
            kind,
            number,
            from,
            to,
        })
    }

    // Writes its own node, where there is room.
    fn write_own(&self, listing: &mut Listing<'_>) -> Result<(), NoRoom>
        ensures lists { Lists (own_nodes self.now) listing.old listing.new result }
        ensures same { SameList listing.old listing.new }
        ensures full { OnErr result (listing.new.filled ≡ length listing.new.nodes.now) }
    {
        match self.own_node() {
            Some(node) => listing.push(node),
            None => Ok(()),
        }
    }

    // Writes its nodes, as many as there is room for. It ends, as premises were finished before their conclusion.
    pub(crate) fn walk(&self, listing: &mut Listing<'_>) -> Result<(), NoRoom>
        ensures lists { Lists (all_nodes self.now) listing.old listing.new result }
        ensures same { SameList listing.old listing.new }
        ensures full { OnErr result (listing.new.filled ≡ length listing.new.nodes.now) }
    {
        let table = self.table;
        let place = self.place();
        self.write_own(listing)?;
        match place.origin {
            Origin::Word(_) | Origin::Empty(_) => Ok(()),
            Origin::First { child, .. } => FinishedAt { table, at: child }.walk(listing),
            Origin::Next { active, child } => {
                FinishedAt { table, at: active }.walk(listing)?;
                FinishedAt { table, at: child }.walk(listing)
            }
        }
    }
}
