// The items and what came of them, printed.
use crate::answers::answer_in;
use crate::items::{Item, Step};
use runs::Slot;
use std::{fmt, io};

// One line: what was done or compared, and what came.
pub fn tell_line<T: fmt::Display>(rt: &HostRuntime, what: &str, came: &T) -> io::Result<()> {
    println!(rt; "   {what:<38} {came}")
}

// A step, unless it is quiet and right; with the answer that is wanted where another came.
fn tell_step(rt: &HostRuntime, step: &Step, slot: &Slot) -> io::Result<()> {
    let answer = answer_in(slot);
    let right = answer == step.want;
    if step.quiet && right {
        return Ok(());
    }
    tell_line(rt, step.told, &answer)?;
    if right {
        return Ok(());
    }
    tell_line(rt, "  but wanted is", &step.want)
}

// The steps of an item.
pub fn tell_steps(rt: &HostRuntime, item: Item, steps: &[Step], slots: &[Slot]) -> io::Result<()> {
    for (step, slot) in steps.iter().zip(slots) {
        if step.item == item {
            tell_step(rt, step, slot)?;
        }
    }
    Ok(())
}
