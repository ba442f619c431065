//! What a request shows about who makes it.

/// What a peer signed.
#[derive(Clone, Copy)]
pub struct Signed<'a> {
    /// The peer's own host.
    pub host: &'a str,
    /// The code over the request.
    pub mac: [u8; 32],
    /// The method of the request.
    pub method: &'a [u8],
    /// Its target.
    pub target: &'a [u8],
    /// Its body.
    pub body: &'a [u8],
}

/// What a request shows about who makes it. Its references point into the request.
#[derive(Clone, Copy)]
pub enum Credentials<'a> {
    /// None of the fields is present.
    Nothing,
    /// A bearer key (RFC 6750, section 2.1), or `None` if the field has another form.
    Bearer(Option<[u8; 32]>),
    /// A peer's code over the request, or `None` if one of its fields is missing or has another
    /// form.
    Mac(Option<Signed<'a>>),
}
