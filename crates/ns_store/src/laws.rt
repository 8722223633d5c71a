//! What holds of all stores. The functions do nothing: their contracts are the laws.
ghost use Rattle.ns_store.specs.Versions.{VersionsRise};

/// Over every list of changes, carried out on a new store, each version that is given is above
/// those given before it.
pub fn versions_rise()
    ensures { VersionsRise }
{}
