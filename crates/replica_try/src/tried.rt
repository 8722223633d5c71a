//! How a try of a replica goes.
ghost use Rattle.std.specs.Prelude.{◌≡◌};
ghost use Rattle.replica_try.specs.Trying.{is_silent, leaves_reusable, moved_in, status_in};
ghost use Rattle.replica_try.specs.Trying.{tried_of_back, tried_of_body, tried_of_head};

use crate::final_head::HeadFault;
use crate::moved::Moved;
use body_wire::BodyEnd;

/// How a try of a replica went, with how much of both bodies moved until then. `Tries` of
/// `specs/Trying.antt` says for each outcome what was sent and received, and what moved on the
/// client's connection.
#[derive(Clone, Copy, PartialEq, Eq)]
pub enum Tried {
    /// Its address could not be dialled.
    NotDialed,
    /// The request could not be sent.
    NotSent(Moved),
    /// The request's body is badly chunked.
    BadBody(Moved),
    /// The request's body is longer than a body may be.
    LongBody(Moved),
    /// The client's bytes ended inside the request's body.
    BodyCut(Moved),
    /// The request's body could not be read.
    BodyFault(Moved),
    /// No byte of a reply came.
    Silent(Moved),
    /// No whole reply came, or none that can be passed on.
    NoReply(Moved),
    /// The reply's body was cut, or is badly chunked.
    ReplyCut {
        /// What moved.
        moved: Moved,
        /// The status with which the reply had begun.
        status: u16,
    },
    /// The reply could not be written.
    WrittenShort {
        /// What moved.
        moved: Moved,
        /// The reply's status.
        status: u16,
    },
    /// The reply went back whole.
    Whole {
        /// What moved.
        moved: Moved,
        /// Its status.
        status: u16,
        /// Whether the client's connection closes behind it, whatever the number of its requests.
        closes: bool,
        /// Whether the replica's connection may carry another request.
        reusable: bool,
    },
    /// Memory was wanting.
    OutOfMemory {
        /// What moved.
        moved: Moved,
        /// The status of the reply, if its head was on its way back.
        status: Option<u16>,
    },
}

impl Tried {
    /// How a try ends whose request did not go on whole, of which so much content was taken.
    pub(crate) fn of_body(sent: u64, end: BodyEnd) -> Tried
        ensures { result ≡ tried_of_body sent end }
    {
        let moved = Moved { sent, given: 0 };
        match end {
            BodyEnd::BadChunk(_) => Tried::BadBody(moved),
            BodyEnd::Cut => Tried::BodyCut(moved),
            BodyEnd::TooLong => Tried::LongBody(moved),
            BodyEnd::ReadFault => Tried::BodyFault(moved),
            BodyEnd::SendFault => Tried::NotSent(moved),
            BodyEnd::WriteFault | BodyEnd::RecvFault | BodyEnd::OutOfMemory => Tried::OutOfMemory {
                moved,
                status: None,
            },
        }
    }

    /// How a try ends whose request has so much content, and whose reply has no final head.
    pub(crate) fn of_head(sent: u64, fault: HeadFault) -> Tried
        ensures { result ≡ tried_of_head sent fault }
    {
        let moved = Moved { sent, given: 0 };
        match fault {
            HeadFault::Silent => Tried::Silent(moved),
            HeadFault::NoReply => Tried::NoReply(moved),
            HeadFault::OutOfMemory => Tried::OutOfMemory {
                moved,
                status: None,
            },
        }
    }

    /// How a try ends whose reply has this status, and went back so far.
    pub(crate) fn of_back(
        moved: Moved,
        status: u16,
        closes: bool,
        reusable: bool,
        passed: Result<u64, BodyEnd>,
    ) -> Tried
        ensures { result ≡ tried_of_back moved status closes reusable passed }
    {
        match passed {
            Ok(_) => Tried::Whole {
                moved,
                status,
                closes,
                reusable,
            },
            Err(BodyEnd::BadChunk(_)) => Tried::ReplyCut { moved, status },
            Err(BodyEnd::Cut | BodyEnd::TooLong | BodyEnd::RecvFault) => {
                Tried::ReplyCut { moved, status }
            }
            Err(BodyEnd::WriteFault) => Tried::WrittenShort { moved, status },
            Err(BodyEnd::ReadFault | BodyEnd::SendFault | BodyEnd::OutOfMemory) => {
                Tried::OutOfMemory {
                    moved,
                    status: Some(status),
                }
            }
        }
    }

    /// How much of both bodies moved.
    pub fn moved(self) -> Moved
        ensures { result ≡ moved_in self }
    {
        match self {
            Tried::NotDialed => Moved { sent: 0, given: 0 },
            Tried::NotSent(moved)
            | Tried::BadBody(moved)
            | Tried::LongBody(moved)
            | Tried::BodyCut(moved)
            | Tried::BodyFault(moved)
            | Tried::Silent(moved)
            | Tried::NoReply(moved) => moved,
            Tried::ReplyCut { moved, status: _ } => moved,
            Tried::WrittenShort { moved, status: _ } => moved,
            Tried::OutOfMemory { moved, status: _ } => moved,
            Tried::Whole {
                moved,
                status: _,
                closes: _,
                reusable: _,
            } => moved,
        }
    }

    /// The status of the reply that went back, whole or in part: `None` where its head never was on
    /// its way.
    pub fn status(self) -> Option<u16>
        ensures { result ≡ status_in self }
    {
        match self {
            Tried::NotDialed
            | Tried::NotSent(_)
            | Tried::BadBody(_)
            | Tried::LongBody(_)
            | Tried::BodyCut(_)
            | Tried::BodyFault(_)
            | Tried::Silent(_)
            | Tried::NoReply(_) => None,
            Tried::ReplyCut { moved: _, status } => Some(status),
            Tried::WrittenShort { moved: _, status } => Some(status),
            Tried::OutOfMemory { moved: _, status } => status,
            Tried::Whole {
                moved: _,
                status,
                closes: _,
                reusable: _,
            } => Some(status),
        }
    }

    /// Whether the connection to the replica may carry another request.
    pub(crate) fn leaves_reusable(self) -> bool
        ensures { result ≡ leaves_reusable self }
    {
        match self {
            Tried::Whole {
                moved: _,
                status: _,
                closes: _,
                reusable,
            } => reusable,
            Tried::NotDialed
            | Tried::NotSent(_)
            | Tried::BadBody(_)
            | Tried::LongBody(_)
            | Tried::BodyCut(_)
            | Tried::BodyFault(_)
            | Tried::Silent(_)
            | Tried::NoReply(_) => false,
            Tried::ReplyCut { .. } | Tried::WrittenShort { .. } => false,
            Tried::OutOfMemory { .. } => false,
        }
    }

    /// Whether no byte of a reply came, though the request was sent, or should have been.
    pub(crate) fn is_silent(self) -> bool
        ensures { result ≡ is_silent self }
    {
        match self {
            Tried::NotSent(_) | Tried::Silent(_) => true,
            Tried::NotDialed
            | Tried::BadBody(_)
            | Tried::LongBody(_)
            | Tried::BodyCut(_)
            | Tried::BodyFault(_)
            | Tried::NoReply(_) => false,
            Tried::ReplyCut { .. } | Tried::WrittenShort { .. } => false,
            Tried::OutOfMemory { .. } => false,
            Tried::Whole { .. } => false,
        }
    }
}
