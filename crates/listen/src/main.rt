// Listens to captured bytes: finds the requests in them and prints everything it met.
#![tactic(auto)]

mod asked;
mod capture;
mod found;

fn main(rt: HostRuntime) -> anyhow::Result<()> {
    run(&rt)
}

fn run(rt: &HostRuntime) -> anyhow::Result<()> {
    println!(rt;
        "listen: requests in captured bytes (hexadecimal text on standard input, `#` begins a comment)"
    )?;
    let line = capture::read_all(rt)?;
    found::tell_all(rt, line.as_slice())?;
    Ok(())
}
