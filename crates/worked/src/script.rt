// Scripts: what is done with a setting.
use crate::charts::{Final, Move, step_and_settle};
use crate::looks::{Code, RuleLook};
use crate::readings::{ReadLook, read_into};
use crate::runs::{Alike, Left, make_run, one_by_one};
use crate::settings::Inputs;
use chart::call::{Call, FinalQuestion};
use chart::setting::Setting;
use chart::weigh::weigh;
use chart_model::phrase::Phrase;
use grammar::Grammar;
use lattice::Lattice;
use reporting::case::by_number;
use reporting::reporter::{Reporter, Row};
use std::io;
use weighing::Weighing;

#[derive(Clone, Copy)]
pub(crate) enum Script {
    // What is asked of the weighing.
    Codes(&'static [Row<Code>]),
    // What is asked of the rules.
    Rules(&'static [Row<RuleLook>]),
    // A weight in one call, as a case of this row.
    Weigh(Phrase, &'static Row<Inputs>),
    // A reading in one call, into so many nodes.
    ReadOnce(Phrase, usize, &'static [Row<ReadLook>]),
    // A chart, before and after it is settled.
    Chart(&'static [Row<Move>], &'static [Row<Final>]),
    // A run: so many steps and then calls, final questions if it settles, and what it leaves.
    Run(usize, &'static [Call], Option<&'static [FinalQuestion]>, &'static [Row<Left>]),
    // A run compared with the same calls one by one.
    OneByOne(&'static [Call], &'static [FinalQuestion], &'static [Row<Alike>]),
}

pub(crate) fn play<P: Print, G: Grammar + Drop, L: Lattice + Drop, W: Weighing + Drop>(
    reporter: &mut Reporter<'_, P>,
    mut setting: Setting<G, L, W>,
    script: &Script,
) -> io::Result<()> {
    match *script {
        Script::Codes(rows) => reporter.report_all(rows, &mut setting.weighing),
        Script::Rules(rows) => reporter.report_all(rows, &mut setting.grammar),
        Script::Weigh(phrase, row) => reporter.report(row, by_number(weigh(setting, phrase))),
        Script::ReadOnce(phrase, room, rows) => {
            reporter.report_all(rows, &mut read_into(setting, phrase, room))
        }
        Script::Chart(before, after) => step_and_settle(reporter, setting, before, after),
        Script::Run(steps, calls, questions, rows) => {
            reporter.report_all(rows, &mut make_run(setting, steps, calls, questions))
        }
        Script::OneByOne(calls, questions, rows) => {
            reporter.report_all(rows, &mut one_by_one(setting, calls, questions))
        }
    }
}
