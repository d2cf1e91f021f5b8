// Why a typed line makes no lattice: refusal 4.
ghost use Rattle.lattices.specs.Faults.{typed_number};

use records::numbered::Numbered;

/// Why a typed line is refused.
#[derive(Clone, Copy, PartialEq, Eq, Debug)]
pub enum TypedFault {
    /// 4: its bytes want nodes past 31.
    TooLong = 4,
}

// The number of a case is its discriminant.
impl Numbered for TypedFault {
    ghost number = { typed_number };

    fn number(self) -> u8 {
        self as u8
    }
}
