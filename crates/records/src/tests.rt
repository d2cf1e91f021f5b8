// Tests of checks where a fault has no number in the program and cannot be copied.
use crate::fault::ListFault;
use crate::{Checkable, check_records};

#[derive(Clone, Copy)]
struct Digit(u8);

#[derive(PartialEq, Eq, Debug, Drop)]
struct TooLarge(u8);

impl Checkable for Digit {
    ghost use Rattle.std.specs.Prelude.{true, false, Some, None, nat_le};

    type Fault = TooLarge;

    ghost number = { λ _. 1 };

    ghost refusal = { λ digit. elim (nat_le digit.0 9) [ true ↦ None | false ↦ Some 1 ] };

    ghost within = { λ digit. nat_le digit.0 9 };

    fn check(self) -> Result<(), TooLarge> {
        if self.0 > 9 {
            return Err(TooLarge(self.0));
        }
        Ok(())
    }
}

#[test]
fn faults_of_any_type(rt: HostRuntime) {
    assert_eq!(rt; check_records::<Digit>(&[]), Ok(()));
    assert_eq!(rt; check_records(&[Digit(0), Digit(9)]), Ok(()));
    let first = ListFault::At {
        at: 1,
        fault: TooLarge(12),
    };
    assert_eq!(rt;
        check_records(&[Digit(3), Digit(12), Digit(40)]),
        Err(first)
    );
}
