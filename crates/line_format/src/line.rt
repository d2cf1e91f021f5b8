// Parsing of one line.
ghost use Rattle.std.specs.Prelude.{◌≡◌};
ghost use Rattle.line_format.specs.Lines.{number as number_of, word_of, line_word};

use crate::number::{number, small_number};
use crate::split::split_once;
use lattice::word::Word;

// The word of four fields, if each is a number in its range.
fn word_of(from: &[u8], to: &[u8], symbol: &[u8], mark: &[u8]) -> Option<Word>
    ensures { result
        ≡ word_of (number_of 255 from.now) (number_of 255 to.now) (number_of 255 symbol.now)
        (number_of 65535 mark.now) }
{
    Some(Word {
        from: small_number(from)?,
        to: small_number(to)?,
        symbol: small_number(symbol)?,
        mark: number(mark)?,
    })
}

// The word that a line writes, if it is of the form.
pub(crate) fn line_word(line: &[u8]) -> Option<Word>
    ensures { result ≡ line_word line.now }
{
    let (from, rest) = split_once(line, b' ')?;
    let (to, rest) = split_once(rest, b' ')?;
    let (symbol, mark) = split_once(rest, b' ')?;
    word_of(from, to, symbol, mark)
}
