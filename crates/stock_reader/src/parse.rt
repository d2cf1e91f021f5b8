// Parses of lines, readings with their weights, and how they are printed.
use arrayvec::ArrayVec;
use chart_model::node::Node;
use std::fmt;

/// The most nodes of a reading; a longer one is refused with 12.
pub const MOST_NODES: usize = 256;

/// The lightest derivation of a line.
#[derive(Drop)]
pub struct Parse {
    /// The sum of the marks of its words and rules.
    pub weight: u64,
    /// Its nodes in pre-order.
    pub nodes: ArrayVec<Node, MOST_NODES>,
}

// A line for the weight, and one for each node, with line feeds only between them.
impl fmt::Display for Parse {
    ghost use Rattle.std.specs.Prelude.{Some};
    ghost use Rattle.stock_reader.specs.Printing.{parse_text};

    ghost output = { λ parse. Some (parse_text parse) };

    fn fmt<W: fmt::Write>(&self, f: &mut fmt::Formatter<W>) -> fmt::Result {
        write!(f, "weight {}", self.weight)?;
        for node in self.nodes.iter() {
            write!(f, "\n{node}")?;
        }
        Ok(())
    }
}
