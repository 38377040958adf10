// The same writes to both stores.
use std::io;
use store::appending::Appending;
use store::flat::Flat;
use store::{Filled, Store};
use wording::Hex;

// Writes far past the strip's 64 entries, many to the same cells.
fn fill<S: Store>(store: &mut S) {
    // Stays: the numbers are counted because they are the cells and the bytes that are written.
    for i in 0..200u8 {
        store.write(i % 7, i);
        store.write(i, 255 - i);
    }
}

// How many of the 256 cells hold the same byte in both.
fn alike<A: Store, B: Store>(a: &A, b: &B) -> usize {
    (0..=255u8)
        .filter(|&cell| a.read(cell) == b.read(cell))
        .count()
}

pub fn tell_all(rt: &HostRuntime) -> io::Result<()> {
    let mut flat = Flat::filled([0xee; 256]);
    let mut appending = Appending::filled([0xee; 256]);
    fill(&mut flat);
    fill(&mut appending);
    let same = alike(&flat, &appending);
    println!(rt; "400 writes to a flat and to an appending store: {same} of 256 cells alike")?;
    let bytes = [0, 1, 2, 3, 4, 5, 6, 7, 199, 200].map(|cell| appending.read(cell));
    let shown = Hex { bytes: &bytes };
    println!(rt; "cells 0 to 7, 199, 200:{shown}")
}
