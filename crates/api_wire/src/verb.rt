//! The methods that the interfaces answer.
ghost use Rattle.std.specs.Prelude.{◌≡◌};
ghost use Rattle.api_wire.specs.Verbs.{methods_text, verb_of};

use http::Method;

/// A method that some path answers.
#[derive(Clone, Copy, Debug, PartialEq, Eq)]
pub enum Verb {
    /// Shows something.
    Get,
    /// As `Get`, without the body of the reply.
    Head,
    /// Makes something new, or does something.
    Post,
    /// Puts something in the place of what is there.
    Put,
    /// Takes something away.
    Delete,
}

/// The verb of a method, if it is one.
pub fn verb_of(method: &Method) -> Option<Verb>
    ensures { result ≡ verb_of method.now }
{
    match method.as_str() {
        "GET" => Some(Verb::Get),
        "HEAD" => Some(Verb::Head),
        "POST" => Some(Verb::Post),
        "PUT" => Some(Verb::Put),
        "DELETE" => Some(Verb::Delete),
        _ => None,
    }
}

/// The methods that a path answers.
#[derive(Clone, Copy, Debug, PartialEq, Eq)]
pub enum Methods {
    /// What can only be shown.
    Reads,
    /// A namespace's table.
    Tables,
    /// A service's addresses.
    Services,
    /// What can only be done.
    Posts,
}

impl Methods {
    /// As the field `Allow` lists them (RFC 9110 section 10.2.1).
    pub fn text(self) -> &'static str
        ensures { result.now ≡ methods_text self }
    {
        match self {
            Methods::Reads => "GET, HEAD",
            Methods::Tables => "GET, HEAD, POST, PUT, DELETE",
            Methods::Services => "GET, HEAD, PUT, DELETE",
            Methods::Posts => "POST",
        }
    }
}
