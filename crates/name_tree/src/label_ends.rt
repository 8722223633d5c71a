//! Where the labels of a path end in its bytes.
ghost use Rattle.std.specs.Prelude.{◌≡◌, ◌<◌, ◌≤◌, ◌-◌, [], ◌∷◌, ◌++◌, length, take, drop};
ghost use Rattle.std.specs.Prelude.{IfOk, OnOk, OnErr, slice_index};
ghost use Rattle.name_tree.specs.FlatPath.{start_at, moved};

use crate::Mem;
use std::alloc::{AllocError, Global};
use std::marker::Model;

/// Where some labels end in one list of bytes, label by label.
///
/// Contracts see the list of the ends. Two bytes hold an end of up to 65,535, and four one that is
/// more. Labels may be as short as a byte, and then their ends take most of the memory of a path;
/// a path of more than 65,535 bytes is rare, and has the ends of its first labels in two bytes all
/// the same.
#[derive(Debug)]
pub(crate) struct LabelEnds {
    /// The ends before the first that two bytes do not hold.
    narrow: Vec<u16>,
    /// That one, and all behind it.
    wide: Vec<u32>,
}

impl Drop for LabelEnds {
    fn drop(self) {
        let LabelEnds { narrow, wide } = self;
        drop(narrow);
        drop(wide);
    }
}

impl Model for LabelEnds {
    ghost use Rattle.std.specs.Prelude.{List, ℕ, ◌++◌};

    ghost Value = { List ℕ };

    ghost view = { λ e. e.narrow.items ++ e.wide.items };
}

impl LabelEnds {
    /// No end, with room for so many that two bytes hold.
    pub(crate) fn with_room(alloc: Global, count: usize) -> Mem<LabelEnds>
        ensures { IfOk result (λ ends. ends ≡ []) }
    {
        Ok(LabelEnds {
            narrow: Vec::with_capacity(alloc, count)?,
            wide: Vec::new(alloc),
        })
    }

    /// How many there are.
    pub(crate) fn len(&self) -> usize
        ensures { result ≡ length self.now }
    {
        self.narrow.len() + self.wide.len()
    }

    /// Where the label at a place ends.
    pub(crate) fn end(&self, at: usize) -> u32
        requires { at < length self.now }
        ensures { result ≡ slice_index self.now at }
    {
        let narrow = self.narrow.len();
        if at < narrow {
            u32::from(self.narrow[at])
        } else {
            self.wide[at - narrow]
        }
    }

    /// Where the label at a place begins; at the place behind the last, where that ends.
    pub(crate) fn start(&self, at: usize) -> u32
        requires { at ≤ length self.now }
        ensures { result ≡ start_at 0 self.now at }
    {
        if at == 0 { 0 } else { self.end(at - 1) }
    }

    /// Puts an end behind the others. An `Err` changes nothing.
    pub(crate) fn push(&mut self, end: u32) -> Mem<()>
        ensures ok { OnOk result (self.new ≡ self.old ++ end ∷ []) }
        ensures err { OnErr result (self.new ≡ self.old) }
    {
        if self.wide.is_empty() && end <= u32::from(u16::MAX) {
            return Ok(self.narrow.push(end as u16)?);
        }
        Ok(self.wide.push(end)?)
    }

    /// Puts the ends of other labels, from one place to before another, behind these, where the
    /// bytes of those labels are moved from one place to another.
    pub(crate) fn put_moved(
        &mut self,
        others: &LabelEnds,
        from: usize,
        to: usize,
        old: u32,
        new: u32,
    ) -> Mem<()>
        requires order { from ≤ to }
        requires within { to ≤ length others.now }
        ensures { OnOk result
            (self.new ≡ self.old ++ moved old new (take (to - from) (drop from others.now))) }
    {
        for at in 0..to - from {
            let end = others.end(from + at).saturating_sub(old);
            self.push(end.checked_add(new).ok_or(AllocError)?)?;
        }
        Ok(())
    }
}
