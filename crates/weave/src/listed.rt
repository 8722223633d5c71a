//! How many calls and operations there are. The lists themselves exist in proofs alone.
ghost use Rattle.std.specs.Prelude.{◌≡◌, length};
ghost use Rattle.weave.specs.Listed.{calls_in, operations_in};

use crate::call::{Call, Calls, Item, Operation, Operations};
use std::mem;
use std::snapshot::Snapshot;

/// The calls of a pass: their number, and the list as proofs see it.
pub(crate) struct CallList {
    pub(crate) len: usize,
    pub(crate) list: Snapshot<Calls>,
    ghost counted: { len ≡ length (calls_in list.value) },
}

impl Drop for CallList {
    fn drop(self) {
        let CallList { len: _, list } = self;
        drop(list);
    }
}

impl CallList {
    ghost use Rattle.std.specs.Prelude.{◌<◌, ◌-◌, ◌^◌, ◌∷◌, ◌++◌, [], false};
    ghost use Rattle.weave.specs.Listed.{item_of};

    /// No calls.
    pub(crate) fn new() -> CallList
        ensures { calls_in result.list.value ≡ [] }
    {
        CallList {
            len: 0,
            list: Snapshot::of(&Calls::NoCalls),
        }
    }

    /// Whether no more can be counted.
    pub(crate) fn is_full(&self) -> bool
        ensures { result ≡ false → length (calls_in self.now.list.value) < 2 ^ 64 - 1 }
    {
        self.len == usize::MAX
    }

    /// One call more, behind so many operations.
    pub(crate) fn push(&mut self, call: Call, at: usize)
        requires { length (calls_in self.old.list.value) < 2 ^ 64 - 1 }
        ensures { calls_in self.new.list.value
            ≡ calls_in self.old.list.value ++ item_of (record { call = call; at = at }) ∷ [] }
    {
        let item = Item { call, at };
        let before = mem::replace(&mut self.list, Snapshot::of(&Calls::NoCalls));
        let calls = Calls::Called(before, Snapshot::of(&item));
        self.list = Snapshot::of(&calls);
        self.len += 1;
    }
}

/// The operations of a world: their number, and the list as proofs see it.
pub(crate) struct OperationList {
    pub(crate) len: usize,
    pub(crate) list: Snapshot<Operations>,
    ghost counted: { len ≡ length (operations_in list.value) },
}

impl Drop for OperationList {
    fn drop(self) {
        let OperationList { len: _, list } = self;
        drop(list);
    }
}

impl OperationList {
    ghost use Rattle.std.specs.Prelude.{◌<◌, ◌-◌, ◌^◌, ◌∷◌, ◌++◌, [], false};
    ghost use Rattle.weave.specs.Listed.{operation_of};

    /// No operations.
    pub(crate) fn new() -> OperationList
        ensures { operations_in result.list.value ≡ [] }
    {
        OperationList {
            len: 0,
            list: Snapshot::of(&Operations::NoOperations),
        }
    }

    /// Whether no more can be counted.
    pub(crate) fn is_full(&self) -> bool
        ensures { result ≡ false → length (operations_in self.now.list.value) < 2 ^ 64 - 1 }
    {
        self.len == usize::MAX
    }

    /// One operation more.
    pub(crate) fn push(&mut self, operation: Operation)
        requires { length (operations_in self.old.list.value) < 2 ^ 64 - 1 }
        ensures { operations_in self.new.list.value
            ≡ operations_in self.old.list.value ++ operation_of operation ∷ [] }
    {
        let none = Snapshot::of(&Operations::NoOperations);
        let before = mem::replace(&mut self.list, none);
        let operations = Operations::Published(before, Snapshot::of(&operation));
        self.list = Snapshot::of(&operations);
        self.len += 1;
    }
}
