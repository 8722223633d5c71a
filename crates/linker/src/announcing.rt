//! What the process is asked to do with a file, and what is told on standard error of a router that
//! serves.
use command_lines::{Command, read_words};
use linker_commands::words_behind_name;
use net_edge::Refusal;
use std::alloc::{AllocError, Global};
use std::env::Args;
use std::io;
use warnings::Expected;

/// What the process is asked to do with a file.
#[derive(Drop)]
pub enum Asked {
    /// To check a configuration.
    Check,
    /// To serve by the configuration at this path.
    Serve(String),
    /// To look a table through.
    Lint,
}

impl Asked {
    /// What the file is that is read first.
    pub fn expected(&self) -> Expected {
        match self {
            Asked::Check | Asked::Serve(_) => Expected::Config,
            Asked::Lint => Expected::Table,
        }
    }
}

/// What the arguments of the process ask to do with a file, as `read_words` reads them, if they ask
/// that and there is memory to say so. The first of them is the program's name.
pub fn asked_of(alloc: Global, arguments: io::Result<Args>) -> Option<Asked> {
    let words = words_behind_name(alloc, arguments.ok()?).ok()?;
    match read_words(words.as_slice()).ok()? {
        Command::Check(_) => Some(Asked::Check),
        Command::Serve(path) => Some(Asked::Serve(String::from_str(alloc, path).ok()?)),
        Command::Lint(_) => Some(Asked::Lint),
        _ => None,
    }
}

/// Why it serves no more, by the status and the address that could not be listened on, if there was
/// one.
pub fn reason(alloc: Global, status: u8, refused: Option<&Refusal>) -> Result<String, AllocError> {
    match (status, refused) {
        (0, _) => String::from_str(alloc, "it was shut down"),
        (3, _) => String::from_str(alloc, "its configuration or its services are refused"),
        (4, _) => String::from_str(alloc, "its configuration or its services could not be read"),
        (5, _) => String::from_str(alloc, "standard output could not be written to"),
        (6, Some(refusal)) => format!(in alloc; "{refusal}"),
        (6, None) => String::from_str(alloc, "connections could not be accepted"),
        (7, _) => String::from_str(alloc, "it was out of memory"),
        _ => String::from_str(alloc, "its words fit no command"),
    }
}
