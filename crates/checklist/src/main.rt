// The engineer's checklist at a cabinet: what a converter is asked, what came, and whether that is right.
#![tactic(auto)]

ghost use Rattle.std.specs.Prelude.{◌≤◌, IfOk};

mod answers;
mod comparing;
mod items;
mod lines;
mod plan;
mod stores;
mod telling;

use anyhow::anyhow;
use comparing::{alike, as_wanted, same_cells};
use items::{ITEMS, Item, Step};
use plan::{SEASONS, SETPOINTS};
use std::io;
use store::appending::Appending;
use store::flat::Flat;
use stores::{Outcome, run_over};
use telling::tell_line;

// The converter's address, and its passwords of kind 0 and kind 1.
const ADDRESS: u16 = 0x0001;

const PASSWORD: [u8; 4] = [0x31, 0x32, 0x33, 0x34];

const COUNTER_PASSWORD: [u8; 4] = [0x35, 0x36, 0x37, 0x38];

// What was done, what came of it over both kinds of store, and where that is told.
// Stays: one list of steps beside the slots of two runs, since both runs make the same steps.
#[derive(Clone, Copy)]
struct Checked<'a> {
    rt: &'a HostRuntime,
    steps: &'a [Step],
    flat: &'a Outcome<Flat>,
    appending: &'a Outcome<Appending>,
}

impl Checked<'_> {
    // Whether all steps of an item went as wanted over both stores.
    fn is_met(&self, item: Item) -> bool {
        as_wanted(item, self.steps, self.flat.slots.as_slice())
            && as_wanted(item, self.steps, self.appending.slots.as_slice())
    }

    // Whether both stores gave the same answers to all calls.
    fn same_answers(&self) -> bool {
        alike(self.flat.slots.as_slice(), self.appending.slots.as_slice())
    }

    // Whether both stores have the same cells at the end.
    fn same_cells(&self) -> bool {
        same_cells(&self.flat.converter, &self.appending.converter)
    }

    // Prints which orders the last item adds to those of the items before.
    fn tell_orders(&self) -> io::Result<()> {
        let writes = SETPOINTS + SEASONS;
        let calls = self.steps.len();
        tell_line(self.rt, "more writes of settings", &writes)?;
        tell_line(self.rt, "of these, each through a window", &SETPOINTS)?;
        tell_line(self.rt, "calls of all items, over each store", &calls)
    }

    // Prints the item of both stores, and tells whether they are the same.
    fn compare(&self) -> io::Result<bool> {
        self.tell_orders()?;
        self.tell_item(Item::Stores)?;
        let answers = self.same_answers();
        let cells = self.same_cells();
        tell_stores(self.rt, answers, cells)?;
        Ok(answers && cells)
    }

    // Prints the steps of an item, as they went over the flat store.
    fn tell_item(&self, item: Item) -> io::Result<()> {
        telling::tell_steps(self.rt, item, self.steps, self.flat.slots.as_slice())
    }

    // Prints an item and how it ends.
    fn check_item(&self, item: Item) -> io::Result<bool> {
        println!(self.rt; "{item}")?;
        let ok = if item == Item::Stores {
            self.compare()? && self.is_met(item)
        } else {
            self.tell_item(item)?;
            self.is_met(item)
        };
        let verdict = if ok { "ok" } else { "WRONG" };
        println!(self.rt; "   {verdict}")?;
        Ok(ok)
    }

    // Goes through all items, and tells how many are ok.
    fn check_all(&self) -> io::Result<usize>
        ensures { IfOk result (λ n. n ≤ 5) }
    {
        // Stays: each item is printed as it is checked, and printing may fail; a chain would carry both.
        let mut ok = 0;
        for item in ITEMS {
            if self.check_item(item)? {
                ok += 1;
            }
        }
        Ok(ok)
    }
}

// Stays: a bool prints true or false, and these are this program's words for it.
fn same(yes: bool) -> &'static str {
    if yes { "the same" } else { "DIFFERENT" }
}

// Prints how the two stores compare.
fn tell_stores(rt: &HostRuntime, answers: bool, cells: bool) -> io::Result<()> {
    tell_line(rt, "all answers, over both stores", &same(answers))?;
    tell_line(rt, "all 256 cells, over both stores", &same(cells))
}

fn run(rt: &HostRuntime) -> anyhow::Result<()> {
    let heap = rt.alloc();
    let steps = plan::all_steps(heap)?;
    let calls = stores::calls_of(heap, steps.as_slice())?;
    let flat = run_over::<Flat>(heap, calls.as_slice())?;
    let appending = run_over::<Appending>(heap, calls.as_slice())?;
    let checked = Checked {
        rt,
        steps: steps.as_slice(),
        flat: &flat,
        appending: &appending,
    };
    println!(rt;
        "checklist: a converter with address 0x0001, logs of volume 3, over a flat and an appending store"
    )?;
    let ok = checked.check_all()?;
    let items = ITEMS.len();
    let wrong = items - ok;
    println!(rt; "{items} items, {ok} ok, {wrong} WRONG")?;
    if wrong > 0 {
        return Err(anyhow!("not every item is ok"));
    }
    Ok(())
}

fn main(rt: HostRuntime) -> anyhow::Result<()> {
    run(&rt)
}
