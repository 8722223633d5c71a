//! The lines that a program tells of a configuration.
ghost use Rattle.std.specs.Prelude.{◌≡◌, ◌++◌, Some, IfOk, OnOk};
ghost use Rattle.linker_config.specs.Lines.{fault_line_of, good_line, key_line as key_line_of};
ghost use Rattle.linker_config.specs.Lines.{port_text};

use crate::config::{Config, Port};
use crate::fault::{ConfigFault, Key};
use crate::{Bytes, Mem};
use addr_book::{Addr, append_addr};
use std::alloc::{AllocError, Global};

/// The line that a good configuration is answered with: `ok router A namerd B admin C` and a line
/// feed, with the addresses as `a.b.c.d:port`.
pub fn check_line(alloc: Global, config: &Config) -> Mem<Bytes>
    ensures { IfOk result (λ line. line.items ≡ good_line config.now) }
{
    let mut line = Vec::from_slice(alloc, b"ok router ")?;
    append_port(config.server, &mut line)?;
    line.extend_from_slice(b" namerd ")?;
    append_port(config.namerd, &mut line)?;
    line.extend_from_slice(b" admin ")?;
    append_port(config.admin, &mut line)?;
    line.push(b'\n')?;
    Ok(line)
}

/// Puts where something listens behind some bytes, as `a.b.c.d:port`.
pub fn append_port(port: Port, out: &mut Bytes) -> Mem<()>
    ensures { OnOk result (out.new.items ≡ out.old.items ++ port_text port) }
{
    let addr = Addr {
        ip: port.ip,
        port: port.port,
    };
    append_addr(addr, out)
}

/// The line that a refused configuration is answered with: `error config json`, or `error config
/// KEY` and `unknown`, `bad` or `missing`, and a line feed. [`ConfigFault::OutOfMemory`] is no
/// fault of the configuration: it has no line, and is answered with want of memory.
pub fn fault_line(alloc: Global, fault: &ConfigFault) -> Mem<Bytes>
    ensures { IfOk result (λ line. fault_line_of fault.now ≡ Some line.items) }
{
    match fault {
        ConfigFault::BadJson => Vec::from_slice(alloc, b"error config json\n"),
        ConfigFault::Unknown(key) => key_line(alloc, key, b" unknown"),
        ConfigFault::Bad(key) => key_line(alloc, key, b" bad"),
        ConfigFault::Missing(key) => key_line(alloc, key, b" missing"),
        ConfigFault::OutOfMemory => Err(AllocError),
    }
}

/// The line of a key and what is wrong with it.
fn key_line(alloc: Global, key: &Key, what: &[u8]) -> Mem<Bytes>
    ensures { IfOk result (λ line. line.items ≡ key_line_of key.now what.now) }
{
    let mut line = Vec::from_slice(alloc, b"error config ")?;
    line.extend_from_slice(key.bytes())?;
    line.extend_from_slice(what)?;
    line.push(b'\n')?;
    Ok(line)
}
