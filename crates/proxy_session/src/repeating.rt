//! Which tries are followed by another attempt, and what that takes out of a budget.
ghost use Rattle.std.specs.Prelude.{◌≡◌};
ghost use Rattle.proxy_session.specs.Attempts.{behind_grant, has_retry, is_followed};
ghost use Rattle.proxy_session.specs.Attempts.{may_repeat, most_of, paid};

use crate::held_try::HeldTry;
use replica_try::Tried;
use retry_budget::Budget;

impl HeldTry<'_> {
    /// Whether another attempt follows, where the request has `fewer` retries than it may have. The
    /// budget is charged for it then.
    pub(crate) fn charge_for_another(
        &self,
        tried: Tried,
        fewer: bool,
        budget: &mut Option<Budget>,
    ) -> bool
        ensures followed { result ≡ is_followed self.now.to.head.now self.now.to.framing fewer
            budget.old tried }
        ensures behind { budget.new ≡ behind_grant result budget.old }
    {
        self.may_repeat(tried) && fewer && spend(budget)
    }

    /// Whether the request may be sent to another replica: this one was not reached; or it gave no
    /// reply, and the request is one that may be carried out twice, of which no byte was read
    /// behind its head.
    fn may_repeat(&self, tried: Tried) -> bool
        ensures { result ≡ may_repeat self.now.to.head.now self.now.to.framing tried }
    {
        match tried {
            Tried::NotDialed => true,
            Tried::NotSent(_) | Tried::Silent(_) | Tried::NoReply(_) => self.to.is_repeatable(),
            Tried::BadBody(_) | Tried::LongBody(_) | Tried::BodyCut(_) | Tried::BodyFault(_) => {
                false
            }
            Tried::ReplyCut { .. } | Tried::WrittenShort { .. } => false,
            Tried::OutOfMemory { .. } | Tried::Whole { .. } => false,
        }
    }
}

/// A request pays in, where there is a budget.
pub(crate) fn pay(budget: &mut Option<Budget>)
    ensures { budget.new ≡ paid budget.old }
{
    match budget {
        Some(budget) => budget.request(),
        None => {}
    }
}

/// How many retries a request may have: none, where there is no budget.
pub(crate) fn most_retries(budget: &Option<Budget>) -> u32
    ensures { result ≡ most_of budget.now }
{
    match budget {
        Some(budget) => budget.most(),
        None => 0,
    }
}

/// Takes a retry out of a budget, where there is one that has it, and says whether it did.
fn spend(budget: &mut Option<Budget>) -> bool
    ensures granted { result ≡ has_retry budget.old }
    ensures behind { budget.new ≡ behind_grant result budget.old }
{
    match budget {
        Some(budget) => budget.spend(),
        None => false,
    }
}
