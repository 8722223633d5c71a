//! How a router handles requests.
use router::Naming;
use std::marker::Brand;

/// How a router handles requests: how a request names a path, and how often one may be tried again.
/// What is known of a connection that comes out of a lock is known by its type alone, so the type
/// that names a router names this too; the caller picks it, mostly `Brand`.
pub trait Handling: Naming {
    ghost use Rattle.std.specs.Prelude.{Option};
    ghost use Rattle.identifier.specs.declared.rule.Rule.{Rule};
    ghost use Rattle.retry_budget.specs.declared.tries.Tries.{Tries};

    ghost rule: { Rule };

    ghost tries: { Option Tries };
}

impl Handling for Brand {
    ghost use Rattle.std.specs.Prelude.{None, [], false};
    ghost use Rattle.identifier.specs.declared.rule.Kind.TheVariants.{MethodAndHost};

    ghost rule = { record { kind = MethodAndHost; prefix = []; clears_context = false } };

    ghost tries = { None };
}
