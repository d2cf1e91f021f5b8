// The program of worked cases: runs them through the crates, and prints of each whether it comes out as it should.
#![tactic(auto)]

mod charts;
mod checks;
mod looks;
mod making;
mod readings;
mod runs;
mod script;
mod settings;
mod tables;
mod texts;
mod theme;

use reporting::reporter::Reporter;
use reporting::tally::Tally;
use std::io;
use theme::Theme;

// Plays themes in order.
fn play_all<P: Print>(reporter: &mut Reporter<'_, P>, themes: &[Theme]) -> io::Result<()> {
    for theme in themes {
        theme.play(reporter)?;
    }
    Ok(())
}

fn main(rt: HostRuntime) -> io::Result<()> {
    let mut reporter = Reporter {
        rt: &rt,
        theme: "",
        tally: Tally::default(),
    };
    for themes in tables::all() {
        play_all(&mut reporter, themes)?;
    }
    println!(rt; "{}", reporter.tally)
}
