//! How requests are handled.
ghost use Rattle.std.specs.Option.{ForSome};
ghost use Rattle.retry_budget.specs.Budget.{AreAllowed};

use identifier::Rule;
use line_base::ConnectionPool;
use retry_budget::Tries;

/// How requests are handled, whatever connection they come on.
pub struct Policy {
    /// How they are named.
    pub rule: Rule,
    /// How often one may be tried again on another replica, if it may be.
    pub retries: Option<Tries>,
    /// Which connections to replicas each worker keeps, if it keeps any.
    pub pool: Option<ConnectionPool>,
    ghost allowed: { ForSome retries (λ tries. AreAllowed tries) },
}

impl Drop for Policy {
    fn drop(self) {
        let Policy {
            rule,
            retries: _,
            pool: _,
        } = self;
        drop(rule);
    }
}
