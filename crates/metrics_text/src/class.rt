//! The classes of status codes.
ghost use Rattle.std.specs.Prelude.{◌≡◌};
ghost use Rattle.metrics_text.specs.Classes.{class_of, class_of_status};

/// The class of a reply's status code (RFC 9110 section 15).
#[derive(Clone, Copy, Debug, PartialEq, Eq)]
pub enum Class {
    /// 200 to 299.
    Success,
    /// 300 to 399.
    Redirection,
    /// 400 to 499.
    ClientError,
    /// 500 to 599.
    ServerError,
    /// Another status code.
    Other,
    /// No reply began.
    NoReply,
}

impl Class {
    /// The class of a status code, if a reply began.
    pub fn of(status: Option<u16>) -> Class
        ensures { result ≡ class_of status }
    {
        match status {
            Some(status) => of_status(status),
            None => Class::NoReply,
        }
    }
}

/// The class of a status code.
fn of_status(status: u16) -> Class
    ensures { result ≡ class_of_status status }
{
    match status {
        200..=299 => Class::Success,
        300..=399 => Class::Redirection,
        400..=499 => Class::ClientError,
        500..=599 => Class::ServerError,
        _ => Class::Other,
    }
}

/// Requests that ended, by the classes of their replies.
#[derive(Clone, Copy, Debug, PartialEq, Eq)]
pub struct Classes {
    /// Those of [`Class::Success`].
    pub success: u64,
    /// Those of [`Class::Redirection`].
    pub redirection: u64,
    /// Those of [`Class::ClientError`].
    pub client_error: u64,
    /// Those of [`Class::ServerError`].
    pub server_error: u64,
    /// Those of [`Class::Other`].
    pub other: u64,
    /// Those of [`Class::NoReply`].
    pub no_reply: u64,
}
