//! How an exchange ended.
ghost use Rattle.std.specs.Prelude.{◌≡◌};
ghost use Rattle.access_log.specs.Ending.{break_of, break_text, ending_text, status_in};

use http_wire::Ended;
use own_reply::OwnError;

/// What a client was answered.
#[derive(Clone, Copy, Debug, PartialEq, Eq)]
pub enum Answer {
    /// Nothing: no reply began.
    Nothing,
    /// A reply of the router's own.
    Own(OwnError),
    /// A replica's reply.
    Passed {
        /// The number of the three digits of its status code.
        status: u16,
    },
}

impl Answer {
    /// The status code of the reply, if one began.
    pub fn status(self) -> Option<u16>
        ensures { result ≡ status_in self }
    {
        match self {
            Answer::Nothing => None,
            Answer::Own(error) => Some(error.status()),
            Answer::Passed { status } => Some(status),
        }
    }
}

/// What cut an exchange off before its reply was written whole.
#[derive(Clone, Copy, Debug, PartialEq, Eq)]
pub enum Break {
    /// The client's bytes ended within its request.
    Cut,
    /// The client's bytes could not be read.
    ReadFault,
    /// The reply could not be written to the client.
    WriteFault,
    /// The replica's reply was cut.
    UpstreamCut,
    /// There was no memory for what was to come.
    OutOfMemory,
}

impl Break {
    /// What the end of a session says of its last exchange: what cut it off, or `None` where the
    /// session ended after it.
    pub fn of(ended: Ended) -> Option<Break>
        ensures { result ≡ break_of ended }
    {
        match ended {
            Ended::Cut => Some(Break::Cut),
            Ended::ReadFault => Some(Break::ReadFault),
            Ended::WriteFault => Some(Break::WriteFault),
            Ended::UpstreamCut => Some(Break::UpstreamCut),
            Ended::OutOfMemory => Some(Break::OutOfMemory),
            Ended::PeerEnded | Ended::Closed | Ended::Spent | Ended::Drained => None,
        }
    }

    /// The word for it.
    pub fn text(self) -> &'static str
        ensures { result.now ≡ break_text self }
    {
        match self {
            Break::Cut => "cut",
            Break::ReadFault => "read-fault",
            Break::WriteFault => "write-fault",
            Break::UpstreamCut => "upstream-cut",
            Break::OutOfMemory => "out-of-memory",
        }
    }
}

/// The word for how an exchange ended.
pub(crate) fn ending_text(answer: Answer, broken: Option<Break>) -> &'static str
    ensures { result.now ≡ ending_text answer broken }
{
    match (broken, answer) {
        (Some(broken), _) => broken.text(),
        (None, Answer::Own(error)) => error.text(),
        (None, Answer::Nothing | Answer::Passed { status: _ }) => "-",
    }
}
