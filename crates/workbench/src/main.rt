// The layers under the converter at work: dates for given seconds, a log that goes round, both stores.
#![tactic(auto)]

mod dates;
mod rounds;
mod stores;

fn main(rt: HostRuntime) -> anyhow::Result<()> {
    run(&rt)
}

fn run(rt: &HostRuntime) -> anyhow::Result<()> {
    println!(rt;
        "workbench: dates for seconds since 2000 (one number a line on standard input), a log, both stores"
    )?;
    dates::tell_all(rt)?;
    rounds::tell_all(rt)?;
    stores::tell_all(rt)?;
    if let Some(date) = samples::last_date() {
        // Stays: the line shows the year alone, and a date prints itself whole.
        let year = 2000 + u16::from(date.year);
        println!(rt;
            "the clock ends with {year}; the table of samples holds of the definitions: proved"
        )?;
    }
    Ok(())
}
