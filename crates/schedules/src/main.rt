//! Works five filed sheets by the engine, line by line, and prints each line beside the sheet's own figure.
#![tactic(auto)]

mod comparison;
mod line_name;
mod met_ed_2012;
mod met_ed_2015;
mod months;
mod penn_power_2013;
mod rate_page;
mod reconciliation_page;
mod refused;
mod report;
mod sheet;
mod supply_page;
mod written;

use comparison::Tally;
use report::Report;

/// Each sheet, and then how many lines there were and how many differ.
fn run(rt: &(impl Print + AllocGlobal)) -> anyhow::Result<()> {
    let sheets = [
        met_ed_2012::RESIDENTIAL,
        met_ed_2015::COMMERCIAL,
        met_ed_2015::RESIDENTIAL,
        met_ed_2015::HOURLY,
        penn_power_2013::HOURLY,
    ];
    let mut report = Report::new(rt);
    println!(rt;
        "Filed sheets worked by the rules: each line from the figures that the sheet prints above it."
    )?;
    println!(rt;
        "A star marks a line that differs; the difference is the worked figure less the sheet's."
    )?;
    for sheet in &sheets {
        sheet.compare(&mut report)?;
    }
    let Tally { lines, differing } = Tally::of(&report.lines);
    println!(rt; "")?;
    println!(rt; "{lines} lines, of which {differing} differ.")?;
    Ok(())
}

fn main(rt: HostRuntime) -> anyhow::Result<()> {
    run(&rt)
}
