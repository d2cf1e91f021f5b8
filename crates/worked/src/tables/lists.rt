// Cases of lists at their limits, and of what a refused check keeps.
use crate::checks::{Bytes, Next, RuleCheck, TooMany, WordCheck};
use crate::looks::RuleLook::{self, Length, Right};
use crate::looks::WordLook::{Count, End, LastNode, Symbol};
use crate::making::{Words as Times, rule, word};
use crate::script::Script;
use crate::settings::Inputs;
use crate::settings::Line::Heard;
use crate::settings::Rules::Ruled;
use crate::settings::Weighed::Sum;
use crate::theme::Cases::{KeptBytes, KeptRules, KeptWords, Rules, Scripts, Words};
use crate::theme::Theme;
use reporting::rows;

// Any word and any rule.
macro_rules! between {
    ($from:expr, $to:expr) => {
        word!($from, $to, 7, 9)
    };
}

macro_rules! of_length {
    ($length:expr) => {
        rule!(9, $length, [1, 2, 3, 4], 5)
    };
}

// So many words of one kind.
macro_rules! times {
    ($count:expr, $from:expr, $to:expr) => {
        Times($count, between!($from, $to), 0, 0)
    };
}

const THEMES: &[Theme] = &[
    Theme(
        "words",
        Words(rows! {
            "one from 30 to 31": WordCheck::Accepts(1, between!(30, 31)) => Ok(1);
            "one from 5 to 32": WordCheck::Accepts(1, between!(5, 32)) => Err(2);
            "one from 40 to 40": WordCheck::Accepts(1, between!(40, 40)) => Err(1);
            "one from 40 to 39": WordCheck::Accepts(1, between!(40, 39)) => Err(1);
            "one from 0 to 31": WordCheck::Accepts(1, between!(0, 31)) => Ok(1);
            "none": WordCheck::Accepts(0, between!(0, 1)) => Ok(0);
            "128": WordCheck::Accepts(128, between!(0, 1)) => Ok(128);
            "129": WordCheck::Accepts(129, between!(0, 1)) => Err(3);
            "129, before any is looked at":
                WordCheck::FirstBad(&[times!(1, 40, 40), times!(128, 0, 1)]) => Err(3);
            "the place of the first that ends too late":
                WordCheck::FirstBad(&[times!(1, 0, 3), times!(1, 1, 2), times!(1, 5, 32), times!(1, 2, 1)]) => Ok(2);
            "the place of the first that does not run forward":
                WordCheck::FirstBad(&[times!(1, 0, 3), times!(1, 4, 4), times!(1, 5, 32)]) => Ok(1);
            "the place of the last of 128":
                WordCheck::FirstBad(&[times!(127, 0, 1), times!(1, 5, 32)]) => Ok(127);
        }),
    ),
    Theme(
        "words kept",
        KeptWords(
            rows! {
                "two are checked": Next(&[between!(0, 3), between!(3, 8)]) => Ok(0);
                "then one that does not run forward": Next(&[between!(1, 2), between!(4, 4)]) => Err(1);
                "then one that ends too late": Next(&[between!(30, 32)]) => Err(2);
            },
            rows! {
                "then 129": TooMany => Err(3);
            },
            rows! {
                "two are left": Count => Ok(2);
                "their last node": LastNode => Ok(8);
                "the end of the second": End(1) => Ok(8);
            },
        ),
    ),
    Theme(
        "typed",
        KeptBytes(
            rows! {
                "no bytes": Bytes(b"") => Ok(0);
                "31 bytes": Bytes(&[65; 31]) => Ok(0);
                "then 32 bytes": Bytes(&[66; 32]) => Err(4);
            },
            rows! {
                "31 words are left": Count => Ok(31);
                "their last node": LastNode => Ok(31);
                "the symbol of the last": Symbol(30) => Ok(65);
            },
        ),
    ),
    Theme(
        "rules",
        Rules(rows! {
            "none": RuleCheck::Accepts(0, of_length!(4)) => Ok(0);
            "96": RuleCheck::Accepts(96, of_length!(4)) => Ok(96);
            "97, before any is looked at": RuleCheck::Accepts(97, of_length!(5)) => Err(6);
            "one without right symbols": RuleCheck::Accepts(1, of_length!(0)) => Ok(1);
            "one of 4 symbols": RuleCheck::Accepts(1, of_length!(4)) => Ok(1);
            "one of 5 symbols": RuleCheck::Accepts(1, of_length!(5)) => Err(5);
            "the place of the first that is too long":
                RuleCheck::FirstBad(&[of_length!(4), of_length!(0), of_length!(5), of_length!(255)]) => Ok(2);
        }),
    ),
    Theme(
        "rules",
        Scripts(
            Inputs(Ruled(&[of_length!(3)]), Heard(&[]), Sum),
            &[Script::Rules(rows! {
                "the last symbol of three": Right(0, 2) => Ok(3);
                "no fourth symbol of three": Right(0, 3) => Err(0);
            })],
        ),
    ),
    Theme(
        "rules kept",
        KeptRules(
            rows! {
                "two are checked": Next(&[of_length!(2), of_length!(3)]) => Ok(0);
                "then one of 5 symbols": Next(&[of_length!(1), of_length!(5)]) => Err(5);
            },
            rows! {
                "then 97": TooMany => Err(6);
            },
            rows! {
                "two are left": RuleLook::Count => Ok(2);
                "the length of the second": Length(1) => Ok(3);
            },
        ),
    ),
];

pub(crate) fn themes() -> &'static [Theme] {
    THEMES
}
