// Requests with what is known of them.
ghost use Rattle.request.specs.Asked.{meant};
ghost use Rattle.request.specs.Known.{Numbered-prop, NumberedRead-prop, Sized-prop};
ghost use Rattle.request.specs.Rows.{Numbered, NumberedRead, Sized};

use crate::Request;

// A request whose parts have the lengths that its row gives them.
#[derive(Clone, Copy)]
pub struct Row<'a> {
    pub request: Request<'a>,
    pub ghost sized: { Sized (meant request) } by { Sized-prop (meant request) },
}

// One whose numbers are within their cells too.
#[derive(Clone, Copy)]
pub struct Checked<'a> {
    pub row: Row<'a>,
    pub ghost numbered: { Numbered (meant row.request) } by { Numbered-prop (meant row.request) },
    pub ghost numbered_read: { NumberedRead (meant row.request) } by { NumberedRead-prop (meant row.request) },
}
