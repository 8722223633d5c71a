//! Which router it is.
use std::marker::Brand;
use std::sync::ledger::Ledger;

/// Which router it is: its cell, the settings that it was made with, its load words, the number of
/// its passes, and its ledger. What is known of a value under a lock is known by its type alone, so
/// the router and its passes are generic in one type that names all of these; the caller picks it,
/// mostly `Brand`.
pub trait Naming: Ledger {
    ghost use Rattle.std.specs.Prelude.{Option, ℕ};
    ghost use Rattle.snap_cell.specs.declared.kept.Origin.{Origin};
    ghost use Rattle.load_words.specs.Seats.{Words};
    ghost use Rattle.machine.specs.Values.{SettingsValue};
    ghost use Rattle.router.specs.declared.current.Current.{Current};
    ghost use Rattle.router.specs.declared.update.Update.{Update};

    ghost cell: { Option (Origin Current Update) };

    ghost settings: { SettingsValue };

    ghost words: { Option Words };

    ghost seats: { ℕ };
}

impl Naming for Brand {
    ghost use Rattle.std.specs.Prelude.{None, []};

    ghost cell = { None };

    ghost settings = { record {
      space = [];
      base = [];
      limits = record { failures = 1; backoff = 0 };
    } };

    ghost words = { None };

    ghost seats = { 0 };
}
