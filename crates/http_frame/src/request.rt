//! What a request asks for.
ghost use Rattle.std.specs.Prelude.{◌≡◌};
ghost use Rattle.http_frame.specs.Request.{method_of};

/// What to do with the path (RFC 9110, section 9). The names are case-sensitive.
#[derive(Clone, Copy, Debug, PartialEq, Eq)]
pub enum Method {
    Get,
    Head,
    Put,
    Delete,
    Post,
    /// Any other method.
    Other,
}

/// What an `If-Match` field lists (RFC 9110, section 13.1.1).
#[derive(Clone, Copy, Debug, PartialEq, Eq)]
pub enum Tags {
    /// There is no such field.
    Absent,
    /// The value of each such field is `*`.
    Any,
    /// Some value lists tags.
    Listed,
}

/// What a head asks for.
#[derive(Clone, Copy, Debug, PartialEq, Eq)]
pub struct Request {
    pub method: Method,
    /// How many bytes the body has.
    pub length: u64,
    /// The connection must be closed after the reply: version 1.0, or `Connection: close`.
    pub close: bool,
    /// The client waits for `100 Continue` before it sends the body.
    pub expects: bool,
    pub if_match: Tags,
    /// Some `If-None-Match` value is `*`.
    pub if_none_any: bool,
}

impl Method {
    // The method of that name.
    pub(crate) fn from_name(name: &[u8]) -> Method
        ensures { result ≡ method_of name.now }
    {
        if name == b"GET".as_slice() {
            Method::Get
        } else if name == b"HEAD".as_slice() {
            Method::Head
        } else if name == b"PUT".as_slice() {
            Method::Put
        } else if name == b"DELETE".as_slice() {
            Method::Delete
        } else if name == b"POST".as_slice() {
            Method::Post
        } else {
            Method::Other
        }
    }
}
