// A cabinet at the desk: a converter that is ordered about by lines of text, and what came of each.
#![tactic(auto)]

mod bench;
mod cabinet;
mod calls;
mod chosen;
mod showing;
mod telling;

use anyhow::anyhow;
use cabinet::Cabinet;
use orders::reading::read;

fn main(rt: HostRuntime) -> anyhow::Result<()> {
    run(&rt)
}

// Takes the orders from standard input, one a line.
fn run(rt: &HostRuntime) -> anyhow::Result<()> {
    let heap = rt.alloc();
    let mut cabinet = Cabinet::new(heap)?;
    for (number, text) in (1usize..).zip(rt.lines(heap)) {
        let text = text.map_err(|error| anyhow!("line {number}: {error}"))?;
        take_line(rt, &mut cabinet, number, text.as_str())?;
    }
    Ok(())
}

// Does what a line orders; a line that is no order for this moment is refused with its number.
fn take_line(
    rt: &HostRuntime,
    cabinet: &mut Cabinet,
    number: usize,
    text: &str,
) -> anyhow::Result<()> {
    let read = read(text, rt.alloc()).map_err(|fault| anyhow!("line {number}: {fault}"))?;
    let Some(order) = read else {
        return Ok(());
    };
    cabinet
        .takes(&order)
        .map_err(|untimely| anyhow!("line {number}: {untimely}"))?;
    let given = text.trim();
    println!(rt; "> {given}")?;
    cabinet.obey(rt, &order)
}
