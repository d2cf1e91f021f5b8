// The stock reader: from the text of heard words to the lightest line that they make.
#![tactic(auto)]

ghost use Rattle.std.specs.Prelude.{◌≡◌, ℕ, Some, Option, Err};
ghost use Rattle.lattice.specs.Checking.{words_refusal};
ghost use Rattle.lattices.specs.Meaning.{heard_words};
ghost use Rattle.line_format.specs.Lines.{text_words};
ghost use Rattle.line_format.specs.Writing.{Decided};
ghost use Rattle.chart.specs.Refusals.{reading_number};
ghost use Rattle.stock_reader.specs.Refusals.{refusal_number};
ghost use Rattle.stock_reader.specs.Line.{line_by_number, line_parse, text_parse, WritesWords};
ghost use Rattle.stock_reader.specs.Line.{WritesLattice, LineSays, Charted, RefusesForm};
ghost use Rattle.stock_reader.specs.Line.{RefusesWords};

pub mod parse;
pub mod refusal;
#[cfg(test)]
mod tests;

use arrayvec::ArrayVec;
use chart::read::read;
use chart::refusal::ReadingRefusal;
use chart::setting::Setting;
use chart_model::node::Node;
use chart_model::phrase::Phrase;
use grammars::count::{CountGrammar, LINE};
use lattice::Lattice;
use lattice::checked::CheckedWords;
use lattices::heard::HeardLattice;
use line_format::text::read_words;
use parse::{MOST_NODES, Parse};
use refusal::Refusal;
use weighings::sum::Sum;

// Reads the lightest line from node 0 of a lattice to its last.
fn read_lattice(lattice: HeardLattice) -> Result<Parse, ReadingRefusal>
    ensures answer { line_by_number reading_number result ≡ line_parse (heard_words lattice.entry) }
    ensures says { LineSays (heard_words lattice.entry) (line_by_number reading_number result) }
{
    let line = Phrase {
        symbol: LINE,
        from: 0,
        to: lattice.last_node(),
    };
    let setting = Setting::new(CountGrammar, lattice, Sum);
    let mut nodes = ArrayVec::from([Node::default(); MOST_NODES]);
    let listed = read(setting, line, &mut nodes)?;
    nodes.truncate(listed.nodes);
    Ok(Parse {
        weight: listed.weight,
        nodes,
    })
}

/// Reads a text as stock counts, with doubts added up. Refused with 3 or 13 for its form, else with 1 or 2 for a word, else
/// with 9, 10 or 12: there is no line, the chart is full, or the reading has more than 256 nodes.
pub fn read_line(text: &[u8]) -> Result<Parse, Refusal>
    ensures answer { line_by_number refusal_number result ≡ text_parse text.now }
    ensures decided { Decided (λ t. line_by_number refusal_number result ≡ text_parse t) text.now }
    ensures says { WritesLattice text.now
        (λ ws. LineSays ws (line_by_number refusal_number result)) }
    ensures charted { WritesLattice text.now (λ _. Charted result) }
    ensures form { (number : ℕ) → text_words text.now ≡ Err number → RefusesForm result number }
    ensures words { WritesWords text.now (λ ws. (refusal : ℕ × Option ℕ) →
        words_refusal ws ≡ Some refusal → RefusesWords result refusal) }
{
    let words = read_words(text)?;
    let lattice = HeardLattice::new(CheckedWords::new(&words)?);
    Ok(read_lattice(lattice)?)
}
