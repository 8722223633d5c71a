//! What holds of all caches. The functions do nothing: their contracts are the laws.
ghost use Rattle.bind_cache.specs.Bindings.{bindings_of};
ghost use Rattle.bind_cache.specs.Cache.{IsCache};
ghost use Rattle.bind_cache.specs.Laws.{NothingIsRight, KeepsRight, TableStaysRight};
ghost use Rattle.bind_cache.specs.Laws.{ServiceStaysRight, ChangesOneService, AddressesNameNothing};

use crate::cache::Cache;

/// No two bindings of a cache have one key, there are at most 1,024, and none cost more than 256
/// lookups.
pub fn bindings_are_apart(cache: &Cache)
    ensures { IsCache (bindings_of cache.now) }
{}

/// A cache in which each binding is right stays so: when a right one is put in, and when it is told
/// of a change. After a change of the namespace's table each binding that stays is right with the
/// new table, whatever tables stand behind it. After a service was added to the book, or removed,
/// each that stays is right with the new book. Other addresses of a service that is there touch no
/// binding.
pub fn caches_stay_right()
    ensures start { NothingIsRight }
    ensures keep { KeepsRight }
    ensures table { TableStaysRight }
    ensures service { ServiceStaysRight }
    ensures addresses { AddressesNameNothing }
{}

/// Setting a service, or dropping it, adds or removes no other service of the book.
pub fn services_change_alone()
    ensures { ChangesOneService }
{}
