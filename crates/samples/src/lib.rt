// Samples worked out by hand, proved of the definitions that all contracts cite.
#![tactic(auto)]

ghost use Rattle.std.specs.Prelude.{◌≡◌, Some};
ghost use Rattle.samples.specs.Table.{Masks, Table, last_date};

use calendar::DateTime;

const LAST_SECOND: u32 = 3_155_759_999;

// The date at the last second of the clock, the one sample that runs too.
pub fn last_date() -> Option<DateTime>
    ensures told { result ≡ Some last_date }
    ensures table { Table }
    ensures masks { Masks }
{
    DateTime::after(LAST_SECOND)
}
