//! Tables that send services to the book.
ghost use Rattle.std.specs.Prelude.{◌≡◌, ◌+◌, ◌%◌, ◌∷◌, [], ◌<◌, Some, codes, IfOk};
ghost use Rattle.dtab_table.specs.Dtab.{rules_of};
ghost use Rattle.dtab_table.specs.Rules.{rule_of};
ghost use Rattle.dtab_table.specs.TableCanon.{AreSoundRules};
ghost use Rattle.turn_parts.specs.Parts.{namer_rule, service_name, service_rule, table_by};

use crate::Mem;
use crate::services::service_text;
use dtab_table::{Dtab, Entry, EntryList, Prefix, PrefixLabel};
use name_tree::{Path, Tree};
use std::alloc::Global;

/// The path `/#/io.l5d.fs`, by which services are named.
fn namer_path(alloc: Global) -> Mem<Path>
    ensures { IfOk result (λ path. path ≡ codes "#" ∷ codes "io.l5d.fs" ∷ []) }
{
    let mut path = Path::new(alloc);
    path.push(b"#".to_vec(alloc)?)?;
    path.push(b"io.l5d.fs".to_vec(alloc)?)?;
    Ok(path)
}

/// The entry `/svc => /#/io.l5d.fs`.
fn namer_entry(alloc: Global) -> Mem<Entry>
    ensures { IfOk result (λ entry. rule_of entry ≡ namer_rule) }
{
    let mut labels = Vec::new(alloc);
    labels.push(PrefixLabel::Label(b"svc".to_vec(alloc)?))?;
    Ok(Entry {
        prefix: Prefix::of(labels),
        tree: Tree::Leaf(namer_path(alloc)?),
    })
}

/// The prefix `/svc/sN`.
fn service_prefix(alloc: Global, service: u64) -> Mem<Prefix>
    ensures { IfOk result
        (λ prefix. prefix ≡ Some (codes "svc") ∷ Some (service_name service) ∷ []) }
{
    let mut labels = Vec::new(alloc);
    labels.push(PrefixLabel::Label(b"svc".to_vec(alloc)?))?;
    labels.push(PrefixLabel::Label(service_text(alloc, service)?))?;
    Ok(Prefix::of(labels))
}

/// The path `/#/io.l5d.fs/sN`.
fn book_path(alloc: Global, service: u64) -> Mem<Path>
    ensures { IfOk result
        (λ path. path ≡ codes "#" ∷ codes "io.l5d.fs" ∷ service_name service ∷ []) }
{
    let mut path = namer_path(alloc)?;
    path.push(service_text(alloc, service)?)?;
    Ok(path)
}

/// The entry `/svc/sN => /#/io.l5d.fs/sM`.
fn service_entry(alloc: Global, from: u64, to: u64) -> Mem<Entry>
    ensures { IfOk result (λ entry. rule_of entry ≡ service_rule from to) }
{
    let prefix = service_prefix(alloc, from)?;
    let path = book_path(alloc, to)?;
    Ok(Entry {
        prefix,
        tree: Tree::Leaf(path),
    })
}

/// The table that sends each service to the book: `/svc => /#/io.l5d.fs`.
pub(crate) fn first_table(alloc: Global) -> Mem<Dtab>
    ensures table { IfOk result (λ dtab. rules_of dtab ≡ namer_rule ∷ []) }
    ensures sound { IfOk result (λ dtab. AreSoundRules (rules_of dtab)) }
{
    let mut entries = Vec::new(alloc);
    entries.push(namer_entry(alloc)?)?;
    Dtab::of(alloc, EntryList::of(entries))
}

/// The table that also sends one service to the next of the 16.
pub(crate) fn table_by(alloc: Global, service: u64) -> Mem<Dtab>
    requires { service < 16 }
    ensures table { IfOk result (λ dtab. rules_of dtab ≡ table_by service) }
    ensures sound { IfOk result (λ dtab. AreSoundRules (rules_of dtab)) }
{
    let mut entries = Vec::new(alloc);
    entries.push(namer_entry(alloc)?)?;
    entries.push(service_entry(alloc, service, (service + 1) % 16)?)?;
    Dtab::of(alloc, EntryList::of(entries))
}
