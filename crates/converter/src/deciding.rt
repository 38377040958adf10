// The decision on a request that was found.
ghost use Rattle.std.specs.Prelude.{◌≡◌, List, length};
ghost use Rattle.converter.specs.Hearing.{carried, in_row, judged_for, standing, standing_for, with_access};
ghost use Rattle.converter.specs.Told.{judgement, requested};
ghost use Rattle.device.specs.Life.{seen};
ghost use Rattle.records.specs.declared.Event.{Event as Noted};
ghost use Rattle.records.specs.declared.PowerGap.{PowerGap as Gap};
ghost use Rattle.request.specs.Asked.{asked};

use access::{Access, Destination, decide};
use device::Inner;
use refusal::Refusal;
use request::Request;
use request::checked::{Checked, Row};
use request_frame::Request as Frame;
use store::Store;

// Whether broadcast carries a command.
// Stays: a broadcast command is a byte here, since it is looked at before it is known to be a command at all.
fn is_carried(command: u8) -> bool
    ensures { result ≡ carried command }
{
    matches!(command, 0x17 | 0x1b)
}

// Decides on a request by the row of its command.
#[tactic(auto, using(crate::proofs::Judged::ruled_as, crate::proofs::Judged::stands_as))]
fn in_row<'a, S: Store>(inner: &mut Inner<S>, frame: &Frame<'a>) -> Result<Checked<'a>, Refusal>
    requires { length frame.now.parameters.now ≡ 9 }
    ensures told { (events : List Noted) (gaps : List Gap) → judgement (requested result) ≡ in_row (seen S.cells inner.old events gaps) (asked frame.now.command frame.now.parameters.now) }
    ensures moves { (events : List Noted) (gaps : List Gap) → seen S.cells inner.new events gaps ≡ with_access (seen S.cells inner.old events gaps) (standing (judgement (requested result)) inner.old.access) }
{
    // Stays: what stands ends before the refusal is given on; a closure in `inspect_err` would hide that.
    match Request::try_from(frame) {
        Err(refusal) => {
            inner.access = Access::closed();
            Err(refusal)
        }
        Ok(request) => {
            let held = inner.held_for(&request);
            decide(&mut inner.access, &Row { request }, &inner.store, held)
        }
    }
}

// Decides on a request for that destination.
pub(crate) fn judge<'a, S: Store>(
    inner: &mut Inner<S>,
    destination: Destination,
    frame: &Frame<'a>,
) -> Result<Checked<'a>, Refusal>
    requires { length frame.now.parameters.now ≡ 9 }
    ensures told { (events : List Noted) (gaps : List Gap) → judgement (requested result) ≡ judged_for (seen S.cells inner.old events gaps) destination frame.now.command frame.now.parameters.now }
    ensures moves { (events : List Noted) (gaps : List Gap) → seen S.cells inner.new events gaps ≡ with_access (seen S.cells inner.old events gaps) (standing_for destination (judgement (requested result)) inner.old.access) }
{
    match destination {
        Destination::Foreign => Err(Refusal::ForeignAddress),
        Destination::Own => in_row(inner, frame),
        Destination::Broadcast => {
            if is_carried(frame.command) {
                return in_row(inner, frame);
            }
            inner.access = Access::closed();
            Err(Refusal::NotForBroadcast)
        }
    }
}
