// Tests of texts, of their parses, and of what is printed.
use super::*;
use chart_model::node::Kind;
use records::numbered::{Numbered, Printed};
use std::test::Fail;

fn weight(text: &str) -> Option<u64> {
    read_line(text.as_bytes())
        .ok()
        .map(|reading| reading.weight)
}

fn number(text: &str) -> u8 {
    read_line(text.as_bytes()).map_or_else(|refusal| refusal.number(), |_| 0)
}

const RULE: Node = Node {
    kind: Kind::Rule,
    number: 1,
    from: 0,
    to: 4,
};

const WORD: Node = Node {
    kind: Kind::Word,
    number: 127,
    from: 30,
    to: 31,
};

#[test]
fn two_boxes_open_one(rt: HostRuntime) {
    assert_eq!(rt;
        weight("0 1 17 10\n1 2 19 20\n2 3 20 30\n3 4 16 40\n"),
        Some(109)
    );
    assert_eq!(rt;
        weight("0 1 17 10\n1 2 19 20\n2 3 20 30\n3 4 16 40"),
        Some(109)
    );
    assert_eq!(rt; weight("0 1 17 10\n0 1 17 4\n0 1 17 5\n"), Some(10));
}

#[test]
fn refusals(rt: HostRuntime) {
    assert_eq!(rt; number(""), 9);
    assert_eq!(rt; number("0 1 19 0\n"), 9);
    assert_eq!(rt; number("0 1 17 10\n1 1 19 20\n"), 1);
    assert_eq!(rt; number("0 1 17 10\n1 32 19 20\n"), 2);
    assert_eq!(rt; number("0 1 17\n"), 13);
}

#[test]
fn nodes_printed(rt: HostRuntime) -> Result<(), Fail> {
    for (node, text) in [(RULE, "rule 1 0 4"), (WORD, "word 127 30 31")] {
        assert_eq!(rt; node.to_string(rt.alloc())?.as_str(), text);
    }
    Ok(())
}

#[test]
fn reading_printed(rt: HostRuntime) -> Result<(), Fail> {
    let mut nodes = ArrayVec::new();
    nodes.push(RULE);
    nodes.push(WORD);
    let reading = Parse { weight: 109, nodes };
    assert_eq!(rt;
        reading.to_string(rt.alloc())?.as_str(),
        "weight 109\nrule 1 0 4\nword 127 30 31"
    );
    Ok(())
}

#[test]
fn answers_printed(rt: HostRuntime) -> Result<(), Fail> {
    let answers: [(&[u8], &str); 3] = [
        (b"", "refused 9"),
        (b"5 32 1 0\n", "refused 2"),
        (
            b"0 1 16 6",
            "weight 12\nrule 0 0 1\nrule 5 0 1\nrule 6 0 1\nword 0 0 1",
        ),
    ];
    for (text, answer) in answers {
        let printed = Printed(read_line(text)).to_string(rt.alloc())?;
        assert_eq!(rt; printed.as_str(), answer);
    }
    Ok(())
}
