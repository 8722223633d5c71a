//! The commands of a script.
ghost use Rattle.std.specs.Prelude.{◌≡◌};
ghost use Rattle.script.specs.Command.{command_of};

/// What a line asks for, by its first word.
#[derive(Clone, Copy)]
pub enum Command {
    /// `dtab TABLE`: the table of the namespace `default` from now on.
    Dtab,
    /// `create NAME TABLE`: a new namespace.
    Create,
    /// `put NAME VERSION TABLE`: another table for a namespace.
    Put,
    /// `delete NAME VERSION`: the namespace is to go.
    Delete,
    /// `get NAME`: a namespace's version and table.
    Get,
    /// `list`: the names of all namespaces.
    List,
    /// `addrs NAME ADDRESS ..`: the addresses of a service from now on.
    Addrs,
    /// `drop NAME`: the service is to go.
    Drop,
    /// `fail ADDRESS MOMENT`: the address failed.
    Fail,
    /// `good ADDRESS MOMENT`: the address answered well.
    Good,
    /// `pick PATH`, or `pick PATH MOMENT WORD WORD WORD TABLE`: a replica for a path.
    Pick,
    /// `view PATH`: how a path is delegated.
    View,
}

/// The command of a line's first word.
pub(crate) fn read_command(word: &[u8]) -> Option<Command>
    ensures { result ≡ command_of word.now }
{
    if word == b"dtab".as_slice() {
        return Some(Command::Dtab);
    }
    if word == b"create".as_slice() {
        return Some(Command::Create);
    }
    if word == b"put".as_slice() {
        return Some(Command::Put);
    }
    if word == b"delete".as_slice() {
        return Some(Command::Delete);
    }
    if word == b"get".as_slice() {
        return Some(Command::Get);
    }
    if word == b"list".as_slice() {
        return Some(Command::List);
    }
    if word == b"addrs".as_slice() {
        return Some(Command::Addrs);
    }
    if word == b"drop".as_slice() {
        return Some(Command::Drop);
    }
    if word == b"fail".as_slice() {
        return Some(Command::Fail);
    }
    if word == b"good".as_slice() {
        return Some(Command::Good);
    }
    if word == b"pick".as_slice() {
        return Some(Command::Pick);
    }
    if word == b"view".as_slice() {
        return Some(Command::View);
    }
    None
}
