//! The parts of an index.
ghost use Rattle.std.specs.Prelude.{◌≡◌, ◌<◌, ◌-◌, [], ◌∷◌, ◌++◌, length, IfOk, OnOk, OnErr};
ghost use Rattle.std.specs.Bool.{OnTrue};
ghost use Rattle.dtab_index.specs.Prefix.{patterns_of};
ghost use Rattle.dtab_index.specs.Index.{matching, some_matches_there};
ghost use Rattle.dtab_index.specs.Parts.{placed_by, HasRoom, AreKept};

use crate::Mem;
use crate::bits::MOST_PLACES;
use crate::part::Part;
use name_tree::Path;

/// The last part, counted from 0, once there is room for a prefix in it: if there is none, a new
/// part is put behind the others.
pub(crate) fn part_with_room(parts: &mut Vec<Part>) -> Mem<usize>
    requires { AreKept parts.old.items }
    ensures kept { AreKept parts.new.items }
    ensures same { placed_by parts.new.items ≡ placed_by parts.old.items }
    ensures room { IfOk result (HasRoom parts.new.items) }
{
    if has_room(parts.as_slice()) {
        return Ok(parts.len() - 1);
    }
    let part = Part::new(*parts.allocator());
    parts.push(part)?;
    Ok(parts.len() - 1)
}

/// Whether there is a part, and room for a prefix in the last one.
fn has_room(parts: &[Part]) -> bool
    ensures { OnTrue result ((0 < length parts.now) × HasRoom parts.now (length parts.now - 1)) }
{
    if parts.is_empty() {
        return false;
    }
    let last = &parts[parts.len() - 1];
    if last.entries.len() >= MOST_PLACES {
        return false;
    }
    true
}

/// Puts a prefix and its position behind the others of a part, the last one. An `Err` changes
/// nothing of what the parts say.
pub(crate) fn add_to(
    parts: &mut Vec<Part>,
    place: usize,
    prefix: Vec<Option<Vec<u8>>>,
    at: u32,
) -> Mem<()>
    requires kept { AreKept parts.old.items }
    requires room { HasRoom parts.old.items place }
    ensures kept { AreKept parts.new.items }
    ensures ok { OnOk result (placed_by parts.new.items
        ≡ placed_by parts.old.items ++ (patterns_of prefix.items, at) ∷ []) }
    ensures err { OnErr result (placed_by parts.new.items ≡ placed_by parts.old.items) }
{
    let part = &mut parts[place];
    part.add(prefix, at)?;
    Ok(())
}

/// Puts the positions of the prefixes that match a path behind some others, that of the last prefix
/// first.
pub(crate) fn put_matching(parts: &[Part], path: &Path, found: &mut Vec<u32>) -> Mem<()>
    requires { AreKept parts.now }
    ensures { OnOk result (found.new.items
        ≡ found.old.items ++ matching (placed_by parts.now) path.now) }
{
    let mut behind = parts.len();
    while behind > 0 {
        behind -= 1;
        let part = &parts[behind];
        part.put_matching(path, found)?;
    }
    Ok(())
}

/// Whether one of the prefixes at the positions from one to before another matches a path.
pub(crate) fn matches_any(parts: &[Part], from: u32, to: u32, path: &Path) -> bool
    requires { AreKept parts.now }
    ensures { result ≡ some_matches_there from to (placed_by parts.now) path.now }
{
    for part in parts {
        if part.matches_any(from, to, path) {
            return true;
        }
    }
    false
}
