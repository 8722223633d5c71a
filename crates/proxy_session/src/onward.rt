//! The head with which a request goes on to a replica.
ghost use Rattle.std.specs.Prelude.{◌≡◌, IfOk, OnOk};
ghost use Rattle.addr_book.specs.Addr.{addr_text};
ghost use Rattle.dtab_table.specs.Dtab.{rules_of};
ghost use Rattle.proxy_session.specs.AskAnswers.{client_in, residual_in};
ghost use Rattle.proxy_session.specs.Onward.{IsHeadTo, host_for};

use crate::asking::Texts;
use crate::{Bytes, Mem};
use addr_book::{Addr, append_addr};
use forward::{Going, forward_head_into};
use http_wire::{Framing, Head};
use machine::Ask;
use router::Names;
use std::alloc::Global;

/// A request on its way to a replica.
#[derive(Clone, Copy)]
pub(crate) struct Onward<'a> {
    /// Its head.
    pub(crate) head: &'a Head,
    /// Whether it is the last request of its connection.
    pub(crate) last: bool,
    /// Whether it has fewer retries than it may have.
    pub(crate) fewer: bool,
    /// How its body is framed.
    pub(crate) framing: Framing,
    /// Its target, in the form in which it goes on.
    pub(crate) target: &'a [u8],
    /// Whom it asks. Empty where it names nobody.
    pub(crate) host: &'a [u8],
    /// What was asked for it.
    pub(crate) ask: &'a Ask,
    /// Whether the replica is asked to end the connection behind its reply: it is not kept.
    pub(crate) closes: bool,
    /// Whether a delegation was kept for the ask.
    pub(crate) hit: bool,
}

impl Onward<'_> {
    /// Puts its head as it goes on to the replica at an address, with the texts of the replica's
    /// names, into `out`.
    pub(crate) fn write(
        &self,
        alloc: Global,
        addr: Addr,
        texts: &Texts,
        names: &Names,
        out: &mut Bytes,
    ) -> Mem<()>
        ensures { OnOk result (IsHeadTo self.now.head.now (host_for self.now.host.now addr)
            self.now.target.now self.now.framing (rules_of self.now.ask.now.local)
            self.now.ask.now.path self.now.closes
            (client_in names.now texts.now) (residual_in names.now texts.now)
            out.new.items) }
    {
        match texts {
            Texts::Kept => self.write_named(alloc, addr, names.client(), names.residual(), out),
            Texts::Own { client, residual } => {
                self.write_named(alloc, addr, client.as_slice(), residual.as_slice(), out)
            }
        }
    }

    /// The same, for names of these canonical texts. Where the request names no host, it asks the
    /// address.
    fn write_named(
        &self,
        alloc: Global,
        addr: Addr,
        client: &[u8],
        residual: &[u8],
        out: &mut Bytes,
    ) -> Mem<()>
        ensures { OnOk result (IsHeadTo self.now.head.now (host_for self.now.host.now addr)
            self.now.target.now self.now.framing (rules_of self.now.ask.now.local)
            self.now.ask.now.path self.now.closes client.now residual.now out.new.items) }
    {
        if !self.host.is_empty() {
            return self.write_to(alloc, self.host, client, residual, out);
        }
        let text = address(alloc, addr.ip, addr.port)?;
        self.write_to(alloc, text.as_slice(), client, residual, out)
    }

    /// The same, for this host.
    fn write_to(
        &self,
        alloc: Global,
        host: &[u8],
        client: &[u8],
        residual: &[u8],
        out: &mut Bytes,
    ) -> Mem<()>
        ensures { OnOk result (IsHeadTo self.now.head.now host.now self.now.target.now
            self.now.framing (rules_of self.now.ask.now.local) self.now.ask.now.path
            self.now.closes client.now
            residual.now out.new.items) }
    {
        let to = Going {
            host,
            target: self.target,
            framing: self.framing,
            local: &self.ask.local,
            service: &self.ask.path,
            client,
            residual,
            closes: self.closes,
        };
        forward_head_into(alloc, self.head, &to, out)
    }
}

/// The text of an address.
fn address(alloc: Global, ip: u32, port: u16) -> Mem<Bytes>
    ensures { IfOk result (λ text. text.items ≡ addr_text (record { ip = ip; port = port })) }
{
    let mut text = Vec::new(alloc);
    append_addr(Addr { ip, port }, &mut text)?;
    Ok(text)
}
