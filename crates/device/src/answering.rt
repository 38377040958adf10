// The data by which requests are answered, put at the start of given memory.
ghost use Rattle.std.specs.Prelude.{◌≡◌, ◌+◌, ◌≤◌, true, List, length};
ghost use Rattle.records.specs.declared.Event.{Event as Noted};
ghost use Rattle.records.specs.declared.PowerGap.{PowerGap as Gap};
ghost use Rattle.device.specs.Life.{seen};
ghost use Rattle.device.specs.Logs.{seen_with};
ghost use Rattle.device.specs.Rows.{Puts, configuration, data_of, held_for, setting_cell};
ghost use Rattle.request.specs.Asked.{meant};
ghost use Rattle.request.specs.Rows.{NumberedRead, is_setting};
ghost use Rattle.store.specs.Cells.{span};

use crate::Inner;
use crate::logs::{Log, Memories, held_by, put_records, put_state};
use readings::copy_readings;
use request::Request;
use request::checked::Row;
use request::rows::mask_number;
use request::writes::{output_mask_cell, setpoint_cell};
use store::Store;
use store::neighbours::read_cells;

// Puts bytes at the start of `out`.
// Stays: data are put into lent memory and their number is told, since the device has no heap.
pub(crate) fn put(out: &mut [u8], bytes: &[u8]) -> usize
    requires { length bytes.now ≤ length out.old }
    ensures { Puts bytes.now result out.old out.new }
{
    out[0..bytes.len()].copy_from_slice(bytes);
    bytes.len()
}

// Puts `n` cells from `first` on at the start of `out`.
fn put_span<S: Store>(store: &S, first: u8, n: usize, out: &mut [u8]) -> usize
    requires cells { first + n ≤ 256 }
    requires room { n ≤ length out.old }
    ensures { Puts (span (S.cells store.now) first n) result out.old out.new }
{
    read_cells(store, first, &mut out[0..n]);
    n
}

// The first cell of a setpoint or an output mask.
// Stays: an enum of setpoint and output mask would be made of the byte for this one test, and dropped.
fn setting_cell(number: u8, which: u8) -> u8
    requires { is_setting number which ≡ true }
    ensures is { result ≡ setting_cell number which }
    ensures fits { result + 8 ≤ 256 }
{
    match which {
        0 => setpoint_cell(number),
        _ => output_mask_cell(number),
    }
}

// The device configuration.
fn configuration_of<S: Store>(store: &S) -> [u8; 9]
    ensures { result ≡ configuration (S.cells store.now) }
{
    let inputs = store.read(19);
    let debounce = store.read(20);
    [
        0,
        store.read(17),
        store.read(18),
        0,
        0,
        0,
        inputs,
        debounce,
        0,
    ]
}

impl<S: Store> Inner<S> {
    // How many records are held in the log of which a request asks records.
    pub fn held_for(&self, request: &Request) -> u16
        ensures { (events : List Noted) (gaps : List Gap) → result ≡ held_for (seen S.cells self.now events gaps) (meant request.now) }
    {
        match *request {
            Request::LogRecords { log, .. } => held_by(&self.positions, Log::from(log)),
            _ => 0,
        }
    }

    // Puts the data of the reply to a granted request at the start of `out`, and tells how many they are.
    // Stays: room for the most data is asked of any memory; an array of just so many bytes would ask more of callers.
    // Stays: a checked request would ask for more, that what is written is within its cells.
    pub fn put_data(&self, row: &Row, memories: &Memories, out: &mut [u8]) -> usize
        requires numbered_read { NumberedRead (meant row.now.request) }
        requires events { (seen_with S.cells self.now memories.now).events.volume ≤ length memories.now.events.now }
        requires gaps { (seen_with S.cells self.now memories.now).gaps.volume ≤ length memories.now.gaps.now }
        requires room { 251 ≤ length out.old }
        ensures puts { Puts (data_of (seen_with S.cells self.now memories.now) (meant row.now.request)) result out.old out.new }
        ensures most { result ≤ 251 }
    {
        match row.request {
            Request::Readings { mask } => copy_readings(mask_number(mask), &self.readings, out),
            Request::ReadClock { .. } => put(out, &self.clock.date()),
            Request::ReadMarks => put_span(&self.store, 11, 6, out),
            Request::ReadSetting { number, which } => put_span(
                &self.store,
                setting_cell(number, which),
                8,
                out,
            ),
            Request::LogState { log } => put_state(&self.positions, Log::from(log), out),
            Request::LogRecords { log, index, count } => put_records(
                &self.positions,
                Log::from(log),
                index,
                count,
                memories,
                out,
            ),
            Request::ReadConfiguration => put(out, &configuration_of(&self.store)),
            _ => 0,
        }
    }
}
