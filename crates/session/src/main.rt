// Write windows from opening to their end: the frames that they put on the line, and what they refuse.
#![tactic(auto)]

mod refused;
mod windows;

use std::io;
use wording::Hex;

// The converter that all frames are for, and its password of kind 0.
const ADDRESS: u16 = 0x0112;

const PASSWORD: [u8; 4] = [0x31, 0x32, 0x33, 0x34];

// Prints the frames of one window, in turn.
fn tell_frames(rt: &HostRuntime, what: &str, frames: &[[u8; 18]]) -> io::Result<()> {
    println!(rt; "{what}")?;
    for frame in frames {
        let hex = Hex { bytes: frame };
        println!(rt; " {hex}")?;
    }
    Ok(())
}

// Prints what comes of a command on an open window with `memory` for its frame.
fn tell_try(rt: &HostRuntime, command: u8, memory: &mut [u8]) -> io::Result<()> {
    let room = memory.len();
    print!(rt; "opened, {command:#04x} into {room} bytes: ")?;
    match refused::try_write(memory, ADDRESS, command, &[0; 9]) {
        Ok(()) => println!(rt; "written")?,
        Err(given_up) => println!(rt; "{given_up}")?,
    }
    let hex = Hex { bytes: memory };
    println!(rt; "  memory{hex}")
}

fn main(rt: HostRuntime) -> anyhow::Result<()> {
    run(&rt)
}

fn run(rt: &HostRuntime) -> anyhow::Result<()> {
    println!(rt; "session: write windows on the converter with address {ADDRESS:#06x}")?;
    let setpoint = [0x0f, 0x02, 0x01, 0x10, 0x27, 0x00, 0x00, 0x32, 0x00];
    tell_frames(
        rt,
        "opened, permitted, setpoint written",
        &station::write_setpoint(ADDRESS, &PASSWORD, &setpoint),
    )?;
    tell_frames(rt, "opened, speed set", &windows::set_speed(ADDRESS, 3))?;
    tell_frames(rt, "opened, closed", &windows::open_and_close(ADDRESS))?;
    tell_try(rt, 0x1d, &mut [0xee; 20])?;
    tell_try(rt, 0x12, &mut [0xee; 18])?;
    tell_try(rt, 0x1d, &mut [0xee; 17])?;
    tell_try(rt, 0x12, &mut [0xee; 17])?;
    Ok(())
}
