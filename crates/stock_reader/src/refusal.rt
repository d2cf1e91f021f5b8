// Why texts are refused, by the stage that refuses them.
ghost use Rattle.std.specs.Prelude.{◌≡◌};
ghost use Rattle.stock_reader.specs.declared.refusal.Refusal.TheVariants.{Form, Lattice, Chart};
ghost use Rattle.chart.specs.declared.refusal.ReadingRefusal.TheVariants.{Unanswered};
ghost use Rattle.stock_reader.specs.Refusals.{refusal_number};

use chart::refusal::{ReadingRefusal, SettledRefusal};
use lattice::fault::LatticeFault;
use line_format::fault::FormFault;
use records::numbered::Numbered;

/// Why a text is refused; its number is that of the case inside.
#[derive(Clone, Copy, PartialEq, Eq, Debug)]
pub enum Refusal {
    /// 3 or 13: its form.
    Form(FormFault),
    /// 1 or 2: its words, with the place of the first at fault, from 0.
    Lattice(LatticeFault),
    /// 9, 10 or 12: there is no line, the chart is full, or the reading is too long.
    Chart(ReadingRefusal),
}

impl Numbered for Refusal {
    ghost number = { refusal_number };

    fn number(self) -> u8 {
        match self {
            Refusal::Form(fault) => fault.number(),
            Refusal::Lattice(fault) => fault.number(),
            Refusal::Chart(refusal) => refusal.number(),
        }
    }
}

impl From<FormFault> for Refusal {
    ghost from_gives = { λ fault r. r ≡ Form fault };

    fn from(fault: FormFault) -> Refusal {
        Refusal::Form(fault)
    }
}

impl From<LatticeFault> for Refusal {
    ghost from_gives = { λ fault r. r ≡ Lattice fault };

    fn from(fault: LatticeFault) -> Refusal {
        Refusal::Lattice(fault)
    }
}

impl From<ReadingRefusal> for Refusal {
    ghost from_gives = { λ refusal r. r ≡ Chart refusal };

    fn from(refusal: ReadingRefusal) -> Refusal {
        Refusal::Chart(refusal)
    }
}

impl From<SettledRefusal> for Refusal {
    ghost from_gives = { λ refusal r. r ≡ Chart (Unanswered refusal) };

    fn from(refusal: SettledRefusal) -> Refusal {
        Refusal::Chart(ReadingRefusal::Unanswered(refusal))
    }
}
