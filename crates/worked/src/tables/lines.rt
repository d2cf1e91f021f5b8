// Cases of texts, as the program reads them.
use crate::texts::Text::{Length, Weight};
use crate::theme::Cases::Texts;
use crate::theme::Theme;
use reporting::rows;

// "Two box, open one" with and without its last line feed, and a word that was heard three times. Of two faults that of the
// form is reported first, then that of a word.
const THEMES: &[Theme] = &[Theme(
    "line of a text",
    Texts(rows! {
        "its weight": Weight(b"0 1 17 10\n1 2 19 20\n2 3 20 30\n3 4 16 40\n") => Ok(109);
        "its length": Length(b"0 1 17 10\n1 2 19 20\n2 3 20 30\n3 4 16 40\n") => Ok(11);
        "no last line feed": Weight(b"0 1 17 10\n1 2 19 20\n2 3 20 30\n3 4 16 40") => Ok(109);
        "one number": Weight(b"0 1 17 10\n0 1 17 4\n0 1 17 5\n") => Ok(10);
        "no words": Weight(b"") => Err(9);
        "a box alone": Weight(b"0 1 19 0\n") => Err(9);
        "does not run forward": Weight(b"1 1 17 10\n") => Err(1);
        "ends too late": Weight(b"5 32 1 0\n") => Err(2);
        "not of the form": Weight(b"0 1 17\n") => Err(13);
        "the form first": Weight(b"1 1 17 10\n0 1 17\n") => Err(13);
    }),
)];

pub(crate) fn themes() -> &'static [Theme] {
    THEMES
}
