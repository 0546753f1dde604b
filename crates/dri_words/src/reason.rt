/// Why a line of a text is refused. On one line the reasons are tried in this order.
#[derive(Clone, Copy, Debug, PartialEq, Eq)]
pub enum Reason {
    /// It isn't one of the forms that are allowed at this place.
    Shape,
    /// A number is outside its range, or an image has not exactly the digits of its shape.
    Range,
    /// A window, client or texture that isn't there, or a client's window that the client doesn't own.
    Unknown,
    /// A window number given before, or a second kill of one client.
    Twice,
    /// A client or texture number that isn't above the one before it.
    Order,
    /// One command, change or item more than the limit.
    Limit,
    /// A texture with more bytes than all regions together.
    Heap,
    /// The text ends too early.
    Ended,
    /// A frame that isn't there, or doesn't begin with a clear. No line of a text has this reason.
    Frame,
}
