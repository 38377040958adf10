// Access: preparation and permission, which requests they let through, and how requests move them.
#![tactic(auto)]

ghost use Rattle.std.specs.Prelude.{◌≡◌, not, length, if◌then◌else◌, IfOk};
ghost use Rattle.access.specs.Decision.{afterwards, bare, closed, destination_of, holds_four, index_past, kind_asked, own, right, stepped, unpermitted, unprepared, verdict};
ghost use Rattle.refusal.specs.Told.{answer};
ghost use Rattle.request.specs.Asked.{meant};
ghost use Rattle.request.specs.Writes.{password_cell};

use refusal::Refusal;
use request::Request;
use request::checked::{Checked, Row};
use request::rows::{Needs, PasswordKind, Tried};
use store::Store;
use store::neighbours::same_cells;

// What stands from one request to the next.
#[derive(Clone, Copy, PartialEq, Eq, Debug)]
pub struct Access {
    pub prepared: bool,
    // The kind of the writes that are permitted: setpoints and output masks, or counters.
    pub permitted: Option<PasswordKind>,
}

const CLOSED: Access = Access {
    prepared: false,
    permitted: None,
};

// For whom a frame is.
#[derive(Clone, Copy, PartialEq, Eq, Debug)]
pub enum Destination {
    Own,
    Broadcast,
    Foreign,
}

// For whom a frame with that address is, at a converter with that store.
pub fn destination_of<S: Store>(store: &S, address: u16) -> Destination
    ensures { result ≡ destination_of (S.cells store.now) address }
{
    if address == 0x00ff {
        return Destination::Broadcast;
    }
    let own = u16::from_le_bytes([store.read(0), store.read(1)]);
    if address == own {
        Destination::Own
    } else {
        Destination::Foreign
    }
}

// Ends preparation and permission when it is let go, unless the request keeps them.
struct Guard<'a> {
    access: &'a mut Access,
    // Stays: the guard is a form that the project keeps, and this tells it what its end does.
    keep: bool,
}

impl Drop for Guard<'_> {
    fn drop(self)
        ensures { self.exit.0.now ≡ (if self.entry.keep then self.entry.access.now else closed) }
    {
        if !self.keep {
            *self.access = CLOSED;
        }
        let Guard { access: _, keep: _ } = self;
    }
}

impl Access {
    // Nothing prepared, nothing permitted.
    pub fn closed() -> Access
        ensures { result ≡ closed }
    {
        CLOSED
    }

    // Whether it has the preparation that is needed.
    fn is_prepared(&self, needs: Needs) -> bool
        ensures { unprepared self.now needs ≡ not result }
    {
        needs == Needs::Nothing || self.prepared
    }

    // Whether it has the permission that is needed.
    fn is_permitted(&self, needs: Needs) -> bool
        ensures { unpermitted self.now needs ≡ not result }
    {
        needs != Needs::PreparationAndPermission || self.permitted == Some(PasswordKind::Setpoint)
    }
}

// Whether a request for records begins past those held.
fn is_past(request: &Request, held: u16) -> bool
    ensures { result ≡ index_past held (meant request.now) }
{
    matches!(*request, Request::LogRecords { index, .. } if held <= index)
}

// Whether the stored password of its kind is the one tried.
fn is_stored<S: Store>(store: &S, tried: &Tried) -> bool
    requires { length tried.now.bytes.now ≡ 4 }
    ensures { result ≡ holds_four (S.cells store.now) (password_cell tried.now.kind) tried.now.bytes.now }
{
    same_cells(store, tried.kind.first_cell(), tried.bytes)
}

// Whether the password that a request tries, if it tries one, is the stored one.
fn is_right<S: Store>(store: &S, row: &Row) -> bool
    ensures { result ≡ right (S.cells store.now) (meant row.now.request) }
{
    row.request
        .password()
        .is_none_or(|tried| is_stored(store, &tried))
}

// The least refusal that applies to a request, if one does.
// Inlined always, as `Row::checked` is: else the request is copied at each answer on its way.
#[inline(always)]
fn decided<'a, S: Store>(
    access: &Access,
    row: &Row<'a>,
    store: &S,
    held: u16,
) -> Result<Checked<'a>, Refusal>
    ensures told { bare (answer result) ≡ verdict access.now (own (S.cells store.now)) held (right (S.cells store.now) (meant row.now.request)) (meant row.now.request) }
    ensures same { IfOk result (λ c. c.row ≡ row.now) }
{
    let needs = row.request.needs();
    if !access.is_prepared(needs) {
        return Err(Refusal::NotPrepared);
    }
    if !access.is_permitted(needs) {
        return Err(Refusal::NotPermitted);
    }
    let own = [store.read(0), store.read(1)];
    let checked = row.checked(&own).ok_or(Refusal::Parameter)?;
    if is_past(&row.request, held) {
        return Err(Refusal::LogIndex);
    }
    if !is_right(store, row) {
        return Err(Refusal::WrongPassword);
    }
    Ok(checked)
}

impl Access {
    // Moves by what stands and by the command together; `kind` is what a request to permit asks for. Tells
    // whether the request keeps what then stands.
    fn step(&mut self, command: u8, kind: Option<PasswordKind>) -> bool
        ensures { (if result then self.new else closed) ≡ stepped self.old command kind }
    {
        // Stays: the match on what stands and on the command together is a form that the project keeps.
        match (self.prepared, self.permitted, command) {
            (_, _, 0x01) => {
                self.prepared = true;
                true
            }
            (_, _, 0x06) => {
                self.permitted = kind;
                true
            }
            (_, _, _) => false,
        }
    }
}

// What a request to permit asks for.
fn kind_asked(request: &Request) -> Option<PasswordKind>
    ensures { result ≡ kind_asked (meant request.now) }
{
    match *request {
        Request::Permit { kind, .. } => Some(PasswordKind::numbered(kind, 0)),
        _ => None,
    }
}

// Decides under the guard, which ends preparation and permission on every way out but those that keep them.
fn guarded<'a, S: Store>(
    access: &mut Access,
    row: &Row<'a>,
    store: &S,
    held: u16,
) -> Result<Checked<'a>, Refusal>
    ensures told { bare (answer result) ≡ verdict access.old (own (S.cells store.now)) held (right (S.cells store.now) (meant row.now.request)) (meant row.now.request) }
    ensures moves { access.new ≡ afterwards (answer result) access.old (meant row.now.request) }
    ensures same { IfOk result (λ c. c.row ≡ row.now) }
{
    let mut guard = Guard {
        access,
        keep: false,
    };
    let checked = decided(guard.access, row, store, held)?;
    let request = &row.request;
    guard.keep = guard.access.step(request.code(), kind_asked(request));
    Ok(checked)
}

// Decides on a request for this converter or broadcast, and moves access. `held` is the number of records
// in the log that the request names.
// Stays: what is decided on goes unchanged from here to the tests; a struct of it would be made for that alone.
pub fn decide<'a, S: Store>(
    access: &mut Access,
    row: &Row<'a>,
    store: &S,
    held: u16,
) -> Result<Checked<'a>, Refusal>
    ensures told { bare (answer result) ≡ verdict access.old (own (S.cells store.now)) held (right (S.cells store.now) (meant row.now.request)) (meant row.now.request) }
    ensures moves { access.new ≡ afterwards (answer result) access.old (meant row.now.request) }
    ensures same { IfOk result (λ c. c.row ≡ row.now) }
{
    // Stays: the guard over a copied-out record is a form that the project keeps.
    let mut copy = *access;
    let answer = guarded(&mut copy, row, store, held);
    *access = copy;
    answer
}
