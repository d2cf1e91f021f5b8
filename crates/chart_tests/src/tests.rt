// Tests of readings: a cycle, empty symbols, short lists, and refusals.
use chart::read::{Listed, read};
use chart::refusal::{ReadingRefusal, SettledRefusal};
use chart::setting::Setting;
use chart::working::WorkingChart;
use chart_model::node::{Kind, Node};
use chart_model::phrase::Phrase;
use grammars::checked::CheckedRules;
use grammars::count::{CountGrammar, LINE};
use grammars::list::RuleList;
use grammars::rule::RuleRecord;
use lattice::checked::CheckedWords;
use lattice::word::Word;
use lattices::heard::HeardLattice;
use lattices::typed::TypedLine;
use std::test::Fail;
use weighings::sum::Sum;

fn node(kind: Kind, number: u8, from: u8, to: u8) -> Node {
    Node {
        kind,
        number,
        from,
        to,
    }
}

fn word(from: u8, to: u8, symbol: u8, mark: u16) -> Word {
    Word {
        from,
        to,
        symbol,
        mark,
    }
}

fn rule(left: u8, length: u8, symbol: u8, mark: u16) -> RuleRecord {
    RuleRecord {
        left,
        length,
        symbols: [symbol; 4],
        mark,
    }
}

const UNUSED: Node = Node {
    kind: Kind::Word,
    number: 99,
    from: 98,
    to: 97,
};

fn two_boxes() -> [Word; 4] {
    [
        word(0, 1, 17, 10),
        word(1, 2, 19, 20),
        word(2, 3, 20, 30),
        word(3, 4, 16, 40),
    ]
}

// The reading of "two box, open one".
fn two_boxes_read() -> [Node; 11] {
    [
        node(Kind::Rule, 1, 0, 4),
        node(Kind::Rule, 0, 0, 2),
        node(Kind::Rule, 2, 0, 2),
        node(Kind::Rule, 7, 0, 1),
        node(Kind::Word, 0, 0, 1),
        node(Kind::Word, 1, 1, 2),
        node(Kind::Rule, 9, 2, 2),
        node(Kind::Rule, 3, 2, 4),
        node(Kind::Word, 2, 2, 3),
        node(Kind::Rule, 6, 3, 4),
        node(Kind::Word, 3, 3, 4),
    ]
}

fn read_line(words: &[Word], nodes: &mut [Node]) -> Result<Result<Listed, ReadingRefusal>, Fail> {
    let setting = Setting::new(
        CountGrammar,
        HeardLattice::new(CheckedWords::new(words)?),
        Sum,
    );
    let line = Phrase {
        symbol: LINE,
        from: 0,
        to: 4,
    };
    Ok(read(setting, line, nodes))
}

#[test]
fn exact_room(rt: HostRuntime) -> Result<(), Fail> {
    let mut nodes = [UNUSED; 11];
    let listed = Listed {
        weight: 109,
        nodes: 11,
    };
    assert_eq!(rt; read_line(&two_boxes(), &mut nodes)?, Ok(listed));
    assert_eq!(rt; nodes, two_boxes_read());
    Ok(())
}

#[test]
fn more_room(rt: HostRuntime) -> Result<(), Fail> {
    let mut nodes = [UNUSED; 13];
    let listed = Listed {
        weight: 109,
        nodes: 11,
    };
    assert_eq!(rt; read_line(&two_boxes(), &mut nodes)?, Ok(listed));
    assert_eq!(rt; nodes[..11], two_boxes_read()[..]);
    assert_eq!(rt; nodes[11..], [UNUSED; 2][..], "the rest of the list stays");
    Ok(())
}

#[test]
fn one_node_short(rt: HostRuntime) -> Result<(), Fail> {
    let mut nodes = [UNUSED; 10];
    assert_eq!(rt;
        read_line(&two_boxes(), &mut nodes)?,
        Err(ReadingRefusal::TooShort)
    );
    assert_eq!(rt; nodes[..], two_boxes_read()[..10]);
    assert_eq!(rt;
        read_line(&two_boxes(), &mut [])?,
        Err(ReadingRefusal::TooShort)
    );
    Ok(())
}

#[test]
fn no_such_line(rt: HostRuntime) -> Result<(), Fail> {
    let mut nodes = [UNUSED; 2];
    let none = ReadingRefusal::Unanswered(SettledRefusal::NoDerivation);
    let outside = ReadingRefusal::Unanswered(SettledRefusal::NoSpan);
    assert_eq!(rt; read_line(&[word(0, 4, 19, 1)], &mut nodes)?, Err(none));
    assert_eq!(rt; read_line(&two_boxes()[..3], &mut nodes)?, Err(outside));
    assert_eq!(rt; nodes, [UNUSED; 2], "a refusal leaves the list");
    Ok(())
}

#[test]
fn symbol_of_itself(rt: HostRuntime) -> Result<(), Fail> {
    let rules = [rule(5, 1, 5, 0), rule(5, 1, 9, 7)];
    let words = [word(0, 1, 9, 5)];
    let setting = Setting::new(
        RuleList::new(CheckedRules::new(&rules)?),
        HeardLattice::new(CheckedWords::new(&words)?),
        Sum,
    );
    let mut nodes = [UNUSED; 3];
    let five = Phrase {
        symbol: 5,
        from: 0,
        to: 1,
    };
    let listed = Listed {
        weight: 12,
        nodes: 2,
    };
    assert_eq!(rt; read(setting, five, &mut nodes), Ok(listed));
    assert_eq!(rt;
        nodes,
        [node(Kind::Rule, 1, 0, 1), node(Kind::Word, 0, 0, 1), UNUSED]
    );
    Ok(())
}

#[test]
fn empties(rt: HostRuntime) -> Result<(), Fail> {
    let rules = [rule(5, 2, 6, 1), rule(6, 0, 0, 2)];
    let setting = Setting::new(
        RuleList::new(CheckedRules::new(&rules)?),
        TypedLine::empty(),
        Sum,
    );
    let chart = WorkingChart::open(setting).settle();
    let mut nodes = [UNUSED; 3];
    let five = Phrase {
        symbol: 5,
        from: 0,
        to: 0,
    };
    assert_eq!(rt; chart.question(five), Ok(5));
    assert_eq!(rt; chart.reading(five, &mut nodes), Ok(3));
    assert_eq!(rt;
        nodes,
        [
            node(Kind::Rule, 0, 0, 0),
            node(Kind::Rule, 1, 0, 0),
            node(Kind::Rule, 1, 0, 0)
        ]
    );
    Ok(())
}

// Symbol n is symbol n - 1 twice, down to an empty one: the reading of symbol 95 has 2^96 - 1 nodes.
#[test]
fn more_nodes_than_can_be_counted(rt: HostRuntime) -> Result<(), Fail> {
    let mut rules = [rule(0, 0, 0, 0); 96];
    for (n, rule) in rules.iter_mut().enumerate().skip(1) {
        rule.left = n as u8;
        rule.length = 2;
        rule.symbols = [(n - 1) as u8; 4];
    }
    let setting = Setting::new(
        RuleList::new(CheckedRules::new(&rules)?),
        TypedLine::empty(),
        Sum,
    );
    let mut nodes = [UNUSED; 3];
    let most = Phrase {
        symbol: 95,
        from: 0,
        to: 0,
    };
    assert_eq!(rt;
        read(setting, most, &mut nodes),
        Err(ReadingRefusal::TooShort)
    );
    assert_eq!(rt;
        nodes,
        [
            node(Kind::Rule, 95, 0, 0),
            node(Kind::Rule, 94, 0, 0),
            node(Kind::Rule, 93, 0, 0)
        ]
    );
    Ok(())
}
