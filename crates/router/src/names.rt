//! Room for the names of a replica.
ghost use Rattle.std.specs.Prelude.{◌≡◌, ◌≤◌, ◌+◌, ◌++◌, length, vec_len, vec_capacity};
ghost use Rattle.name_tree.specs.Path.{canon_byte, canon_label, canon_path};

use crate::Mem;
use addr_book::Leaf;
use name_tree::{Path, is_plain_byte};
use std::alloc::Global;
use text_parts::hex_digit;

/// The bytes of a name's text.
type Bytes = Vec<u8>;

/// How many bytes are set aside for each name.
const ROOM: usize = 2_048;

/// Room for the names of a replica, so that [`Router::peek`](crate::Router::peek) takes no memory.
/// Contracts see the two texts (`client_text`, `residual_text`).
pub struct Names {
    client: Bytes,
    residual: Bytes,
    ghost room: { (2048 ≤ vec_capacity client) × (2048 ≤ vec_capacity residual) },
}

impl Drop for Names {
    fn drop(self) {
        let Names { client, residual } = self;
        drop(client);
        drop(residual);
    }
}

impl Names {
    ghost use Rattle.std.specs.Prelude.{IfOk, []};
    ghost use Rattle.router.specs.Names.{client_text, residual_text};
    ghost use Rattle.router.specs.Short.{IsShort};

    /// Room for both names, 2,048 bytes for each, which always suffice. Both are empty.
    pub fn room(alloc: Global) -> Mem<Names>
        ensures { IfOk result (λ names. (client_text names ≡ []) × (residual_text names ≡ [])) }
    {
        Ok(Names {
            client: Vec::with_capacity(alloc, ROOM)?,
            residual: Vec::with_capacity(alloc, ROOM)?,
        })
    }

    /// The canonical text of the labels that named the replica's cluster.
    pub fn client(&self) -> &[u8]
        ensures { result.now ≡ client_text self.now }
    {
        self.client.as_slice()
    }

    /// The canonical text of the labels behind those.
    pub fn residual(&self) -> &[u8]
        ensures { result.now ≡ residual_text self.now }
    {
        self.residual.as_slice()
    }

    /// Both are empty from now on.
    pub(crate) fn clear(&mut self)
        ensures { (client_text self.new ≡ []) × (residual_text self.new ≡ []) }
    {
        self.client.clear();
        self.residual.clear();
    }

    /// Writes the names of a leaf in the place of those that are there.
    pub(crate) fn write(&mut self, leaf: &Leaf)
        requires { IsShort leaf.now }
        ensures client { client_text self.new ≡ canon_path leaf.now.client }
        ensures residual { residual_text self.new ≡ canon_path leaf.now.residual }
    {
        self.clear();
        put_path(&leaf.client, &mut self.client);
        put_path(&leaf.residual, &mut self.residual);
    }
}

/// Puts the canonical text of a path behind some bytes, where there is room for it.
fn put_path(path: &Path, out: &mut Bytes)
    requires { vec_len out.old + length (canon_path path.now) ≤ vec_capacity out.old }
    ensures items { out.new.items ≡ out.old.items ++ canon_path path.now }
    ensures capacity { vec_capacity out.new ≡ vec_capacity out.old }
{
    if path.is_empty() {
        out.push_reserved(b'/');
        return;
    }
    for at in 0..path.len() {
        put_label(path.label(at), out);
    }
}

/// Puts the canonical text of a label behind some bytes, where there is room for it.
fn put_label(label: &[u8], out: &mut Bytes)
    requires { vec_len out.old + length (canon_label label.now) ≤ vec_capacity out.old }
    ensures items { out.new.items ≡ out.old.items ++ canon_label label.now }
    ensures capacity { vec_capacity out.new ≡ vec_capacity out.old }
{
    out.push_reserved(b'/');
    for byte in label {
        put_byte(*byte, out);
    }
}

/// Puts a label's byte behind some bytes, where there is room for it.
fn put_byte(byte: u8, out: &mut Bytes)
    requires { vec_len out.old + length (canon_byte byte) ≤ vec_capacity out.old }
    ensures items { out.new.items ≡ out.old.items ++ canon_byte byte }
    ensures capacity { vec_capacity out.new ≡ vec_capacity out.old }
{
    if is_plain_byte(byte) {
        out.push_reserved(byte);
        return;
    }
    out.push_reserved(b'\\');
    out.push_reserved(b'x');
    out.push_reserved(hex_digit(byte / 16));
    out.push_reserved(hex_digit(byte % 16));
}
