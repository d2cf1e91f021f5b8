// Parsing of a text, line by line.
ghost use Rattle.std.specs.Prelude.{◌≡◌, ◌<◌, ◌∷◌, length};
ghost use Rattle.line_format.specs.Lines.{lines};
ghost use Rattle.line_format.specs.Parsing.{Answers, ReadsBack, ReadsOnly};
ghost use Rattle.line_format.specs.Writing.{enough, Decided};

use crate::fault::FormFault;
use crate::line::line_word;
use crate::split::split_once;
use arrayvec::ArrayVec;
use lattice::word::Word;

/// The most lines of a text, and so the most words.
pub const MOST_LINES: usize = 128;

/// So many bytes decide what any text says: 128 lines of at most 18 bytes, and one byte more.
pub const ENOUGH_BYTES: usize = 2305;

/// `ENOUGH_BYTES`, tied by its contract to what it means.
pub fn needed_bytes() -> usize
    ensures { result ≡ enough }
{
    ENOUGH_BYTES
}

// The first line of a text that has one, and the text after it.
fn first_line(text: &[u8]) -> (&[u8], &[u8])
    requires { 0 < length text.now }
    ensures lines { lines text.now ≡ result.0.now ∷ lines result.1.now }
    ensures shorter { length result.1.now < length text.now }
{
    split_once(text, b'\n').unwrap_or((text, &[]))
}

/// The words of a text, one a line. Refused at the first line that cannot be taken: with 13 if it is not of the form, and
/// with 3 if it is the 129th.
pub fn read_words(text: &[u8]) -> Result<ArrayVec<Word, MOST_LINES>, FormFault>
    ensures answers { Answers text.now result }
    ensures decided { Decided (λ t. Answers t result) text.now }
    ensures reads_back { ReadsBack text.now result }
    ensures reads_only { ReadsOnly text.now result }
{
    let mut words = ArrayVec::new();
    let mut rest = text;
    while !rest.is_empty() {
        if words.is_full() {
            return Err(FormFault::TooManyLines);
        }
        let (line, after) = first_line(rest);
        let word = line_word(line).ok_or(FormFault::NotOfTheForm)?;
        words.push(word);
        rest = after;
    }
    Ok(words)
}
