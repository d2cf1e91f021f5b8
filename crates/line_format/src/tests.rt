// Tests of texts that are of the form, and of texts that are not.
use super::*;
use crate::fault::*;
use crate::input::read_text;
use crate::text::read_words;
use lattice::word::Word;
use std::array::from_fn;
use std::test::Fail;

// How many words a text has.
fn read(text: &[u8]) -> Result<usize, FormFault> {
    Ok(read_words(text)?.len())
}

#[test]
fn words_and_numbers(rt: HostRuntime) {
    let words = read_words(b"0 1 17 10\n255 0 10 65535").unwrap();
    assert_eq!(rt; words.len(), 2);
    let second = Word {
        from: 255,
        to: 0,
        symbol: 10,
        mark: 65535,
    };
    assert_eq!(rt; words[1], second);
    assert_eq!(rt; words.get(2).copied(), None);
    assert_eq!(rt; read(b""), Ok(0));
    assert_eq!(rt; read(b"0 1 2 3"), Ok(1));
    assert_eq!(rt; read(b"0 1 2 3\n"), Ok(1));
}

#[test]
fn not_of_the_form(rt: HostRuntime) {
    let texts = [
        "\n",
        "0 1 2 3\n\n",
        "1 2 3 4\n1 2 3\n",
        "0  1 2 3\n",
        " 0 1 2 3\n",
        "0 1 2 3 \n",
        "0 1 2\n",
        "0 1 2 3 4\n",
        "00 1 2 3\n",
        "0 01 2 3\n",
        "+0 1 2 3\n",
        "0 -1 2 3\n",
        "0 1 2 3\r\n",
        "0 1 2\t3\n",
        "256 1 2 3\n",
        "0 1 2 65536\n",
        "0 1 2 99999999999999999999\n",
        "0 1 2 x\n",
        "0 1 2 ",
    ];
    for text in texts {
        assert_eq!(rt;
            read(text.as_bytes()),
            Err(FormFault::NotOfTheForm),
            "{}",
            text
        );
    }
}

#[test]
fn most_lines(rt: HostRuntime) {
    let mut bytes: [u8; 1032] = from_fn(|at| b"0 1 2 3\n"[at % 8]);
    assert_eq!(rt; read(&bytes[0..1024]), Ok(128));
    assert_eq!(rt; read(&bytes[0..1025]), Err(FormFault::TooManyLines));
    bytes[1016] = b'x';
    assert_eq!(rt; read(&bytes), Err(FormFault::NotOfTheForm));
}

#[test]
fn inputs(rt: HostRuntime) -> Result<(), Fail> {
    let text = read_text("0 1 2 3\n".as_bytes())?;
    assert_eq!(rt; text.as_slice(), "0 1 2 3\n".as_bytes());
    let long = [b'0'; 2306];
    assert_eq!(rt; read_text(long.as_slice())?.len(), 2305);
    assert_eq!(rt; read_text("".as_bytes())?.len(), 0);
    Ok(())
}
