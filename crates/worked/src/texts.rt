// What is asked of texts.
use arrayvec::ArrayVec;
use line_format::text::read_words;
use records::numbered::Numbered;
use reporting::case::Answer;
use reporting::reporter::Asks;
use stock_reader::read_line;

// What is asked: how many words so many lines and a further text have, or the weight or the number of nodes of a text's
// reading.
#[derive(Clone, Copy)]
pub(crate) enum Text {
    Words(u8, &'static [u8]),
    Weight(&'static [u8]),
    Length(&'static [u8]),
}

// So many lines of 8 bytes, and then further text.
fn lines(count: u8, rest: &[u8]) -> ArrayVec<u8, 1032> {
    let mut text = ArrayVec::new();
    for _ in 0..count {
        let _ = text.try_extend_from_slice(b"0 1 7 9\n");
    }
    let _ = text.try_extend_from_slice(rest);
    text
}

impl Asks<()> for Text {
    fn ask(&self, _: &mut ()) -> Answer {
        match *self {
            Text::Words(count, rest) => match read_words(&lines(count, rest)) {
                Ok(words) => Ok(words.len() as u64),
                Err(fault) => Err(fault.number()),
            },
            Text::Weight(text) => match read_line(text) {
                Ok(reading) => Ok(reading.weight),
                Err(refusal) => Err(refusal.number()),
            },
            Text::Length(text) => match read_line(text) {
                Ok(reading) => Ok(reading.nodes.len() as u64),
                Err(refusal) => Err(refusal.number()),
            },
        }
    }
}
