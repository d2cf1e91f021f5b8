// The nodes of which a reading consists.
use std::fmt;

/// What a node of a derivation is.
#[derive(Clone, Copy, Default, PartialEq, Eq, Debug)]
pub enum Kind {
    /// A leaf: a word of the lattice.
    #[default]
    Word,
    /// A rule of the grammar, whose children come after it in the list.
    Rule,
}

/// A word or a rule over a span, by its number. A default node fills room that no reading has written to.
#[derive(Clone, Copy, Default, PartialEq, Eq, Debug)]
pub struct Node {
    /// Whether it is a word or a rule.
    pub kind: Kind,
    /// The number of the word in its lattice, or of the rule in its grammar, from 0.
    pub number: u8,
    /// The node of the lattice where the span begins.
    pub from: u8,
    /// The node of the lattice where it ends.
    pub to: u8,
}

// The kind in one word.
impl fmt::Display for Kind {
    ghost use Rattle.std.specs.Prelude.{Some};
    ghost use Rattle.chart_model.specs.Printing.{kind_text};

    ghost output = { λ kind. Some (kind_text kind) };

    fn fmt<W: fmt::Write>(&self, f: &mut fmt::Formatter<W>) -> fmt::Result {
        match self {
            Kind::Word => write!(f, "word"),
            Kind::Rule => write!(f, "rule"),
        }
    }
}

// One line of the program's output, without its line feed.
impl fmt::Display for Node {
    ghost use Rattle.std.specs.Prelude.{Some};
    ghost use Rattle.chart_model.specs.Printing.{node_text};

    ghost output = { λ node. Some (node_text node) };

    fn fmt<W: fmt::Write>(&self, f: &mut fmt::Formatter<W>) -> fmt::Result {
        write!(f, "{} {} {} {}", self.kind, self.number, self.from, self.to)
    }
}
