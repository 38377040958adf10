// Both stores on examples: one list of 300 writes against a plain array, and neighbouring cells.
#![tactic(auto)]

#[cfg(test)]
mod tests {
    use std::array;
    use std::process::Abort;
    use store::appending::Appending;
    use store::flat::Flat;
    use store::neighbours::{read_cells, same_cells, write_cells};
    use store::{Filled, Store};

    // Cell `k` holds 255 - k.
    fn falling() -> [u8; 256] {
        array::from_fn(|k| 255 - k as u8)
    }

    // Writes to `store` and to `plain` alike: the cell and the byte are the highest two bytes of the
    // numbers x, 1664525 * x + 1013904223, and so on, of 32 bits.
    fn write_300<S: Store>(store: &mut S, plain: &mut [u8; 256]) {
        let mut x: u32 = 1;
        for _ in 0..300 {
            x = x.wrapping_mul(1664525).wrapping_add(1013904223);
            let [cell, byte, _, _] = x.to_be_bytes();
            store.write(cell, byte);
            plain[cell as usize] = byte;
        }
    }

    // The sum of the cells, each times its number and 1, once each is as in `plain`.
    fn weighed<S: Store>(rt: &impl Abort, store: &S, plain: &[u8; 256]) -> u32 {
        let mut sum: u32 = 0;
        for (cell, wanted) in (0..=255u8).zip(plain) {
            let byte = store.read(cell);
            assert_eq!(rt; byte, *wanted);
            sum = sum.wrapping_add((u32::from(cell) + 1) * u32::from(byte));
        }
        sum
    }

    fn driven<S: Store>(rt: &impl Abort, store: &mut S) {
        let mut plain = falling();
        assert_eq!(rt; weighed(rt, store, &plain), 2796160);
        write_300(store, &mut plain);
        assert_eq!(rt; weighed(rt, store, &plain), 3685606);
    }

    // A password of four cells, and the cells beside it, after the 300 writes.
    fn password<S: Store>(rt: &impl Abort, store: &mut S) {
        let mut out = [0; 8];
        read_cells(store, 0, &mut out);
        assert_eq!(rt; out, [102, 133, 125, 96, 253, 94, 154, 220]);
        write_cells(store, 3, &[1, 2, 3, 4]);
        read_cells(store, 0, &mut out);
        assert_eq!(rt; out, [102, 133, 125, 1, 2, 3, 4, 220]);
        let wrong = [[9, 2, 3, 4], [1, 9, 3, 4], [1, 2, 9, 4], [1, 2, 3, 9]];
        for tried in wrong {
            assert!(rt; !same_cells(store, 3, &tried));
        }
        assert!(rt; same_cells(store, 3, &[1, 2, 3, 4]));
        assert!(rt; !same_cells(store, 4, &[1, 2, 3, 4]));
    }

    // The last cells, after the 300 writes.
    fn last<S: Store>(rt: &impl Abort, store: &mut S) {
        let mut out = [0; 4];
        write_cells(store, 254, &[7, 8]);
        read_cells(store, 252, &mut out);
        assert_eq!(rt; out, [10, 2, 7, 8]);
        assert!(rt; same_cells(store, 255, &[8]));
    }

    fn all<S: Filled + Drop>(rt: &impl Abort) {
        let mut store = S::filled(falling());
        driven(rt, &mut store);
        password(rt, &mut store);
        last(rt, &mut store);
    }

    #[test]
    fn stores_are_alike(rt: HostRuntime) {
        all::<Flat>(&rt);
        all::<Appending>(&rt);
    }
}
