// Tests of words and typed lines at their limits.
use crate::fault::TypedFault;
use crate::heard::HeardLattice;
use crate::typed::TypedLine;
use lattice::Lattice;
use lattice::checked::{CheckedWords, no_words};
use lattice::fault::{LatticeFault, WordFault};
use lattice::word::Word;
use records::Record;
use records::numbered::Numbered;
use std::test::Fail;

fn word(from: u8, to: u8) -> Word {
    Word {
        from,
        to,
        symbol: 7,
        mark: 9,
    }
}

#[test]
fn two_ends(rt: HostRuntime) {
    assert_eq!(rt; word(30, 31).check(), Ok(()));
    assert_eq!(rt; word(5, 32).check(), Err(WordFault::EndsTooLate));
    assert_eq!(rt; word(40, 40).check(), Err(WordFault::NotForward));
}

#[test]
fn first_fault(rt: HostRuntime) {
    let words = [word(0, 3), word(5, 32), word(2, 1)];
    let mut checked = no_words();
    let fault = LatticeFault::At {
        at: 1,
        fault: WordFault::EndsTooLate,
    };
    assert_eq!(rt; checked.check(&words), Err(fault));
    assert_eq!(rt; fault.number(), 2);
    assert_eq!(rt;
        HeardLattice::new(checked).len(),
        0,
        "a refusal keeps what was there"
    );
}

#[test]
fn most_words(rt: HostRuntime) {
    let words = [word(0, 1); 129];
    let mut checked = no_words();
    assert_eq!(rt; checked.check(&words), Err(LatticeFault::TooMany));
    assert_eq!(rt; checked.check(&words[0..128]), Ok(()));
    assert_eq!(rt; HeardLattice::new(checked).len(), 128);
}

#[test]
fn heard_words(rt: HostRuntime) -> Result<(), Fail> {
    let words = [word(0, 3), word(1, 9), word(2, 4)];
    let lattice = HeardLattice::new(CheckedWords::new(&words)?);
    assert_eq!(rt; lattice.last_node(), 9);
    assert_eq!(rt; lattice.word(2), Some(word(2, 4)));
    assert_eq!(rt; lattice.word(3), None);
    Ok(())
}

#[test]
fn typed_bytes(rt: HostRuntime) {
    let bytes = [65; 32];
    let mut line = TypedLine::empty();
    assert_eq!(rt; line.set(&bytes[0..31]), Ok(()));
    assert_eq!(rt; line.set(&bytes), Err(TypedFault::TooLong));
    assert_eq!(rt; line.last_node(), 31);
    let last = Word {
        from: 30,
        to: 31,
        symbol: 65,
        mark: 0,
    };
    assert_eq!(rt; line.word(30), Some(last));
    assert_eq!(rt; line.word(31), None);
}
