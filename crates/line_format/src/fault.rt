// Why texts are refused for their form: refusals 3 and 13.
ghost use Rattle.line_format.specs.Faults.{form_number};

use records::numbered::Numbered;

/// Why a text is refused for its form. The first line at fault decides.
#[derive(Clone, Copy, PartialEq, Eq, Debug)]
pub enum FormFault {
    /// 3: it has a line after its 128th.
    TooManyLines = 3,
    /// 13: a line is not four numbers with a space between each two, or a number is out of its range.
    NotOfTheForm = 13,
}

// The number of a case is its discriminant.
impl Numbered for FormFault {
    ghost number = { form_number };

    fn number(self) -> u8 {
        self as u8
    }
}
