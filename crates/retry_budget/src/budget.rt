//! The budget of retries of one connection.
ghost use Rattle.std.specs.Prelude.{◌≡◌};
ghost use Rattle.retry_budget.specs.Budget.{AreAllowed, behind_request, behind_spend, can_spend};
ghost use Rattle.retry_budget.specs.Budget.{opening};

use crate::Tries;
use std::marker::Model;

/// What a retry takes out of the balance.
const RETRY: u64 = 100;

/// What the balance is at most.
const MOST: u64 = 100_000;

/// A budget of retries, which the requests of one connection share.
///
/// Its balance is counted in hundredths of a retry: [`Budget::request`] pays in what the settings
/// say, and [`Budget::spend`] takes out a whole retry, where there is one. It takes no memory.
#[derive(Drop)]
pub struct Budget {
    tries: Tries,
    balance: u64,
}

impl Model for Budget {
    ghost use Rattle.std.specs.Prelude.{◌≤◌};
    ghost use Rattle.retry_budget.specs.Budget.{AreAllowed, BudgetValue};

    ghost Value = { BudgetValue };

    ghost view = { λ b. record { tries = b.tries; balance = b.balance } };

    ghost invariant = { λ b. AreAllowed b.tries × (b.balance ≤ 100000) };
}

impl Budget {
    /// A budget with these settings. Its balance is the reserve.
    pub fn start(tries: Tries) -> Budget
        requires { AreAllowed tries }
        ensures { result ≡ opening tries }
    {
        Budget {
            tries,
            balance: u64::from(tries.reserve) * RETRY,
        }
    }

    /// A request pays in, up to a balance of 100,000.
    pub fn request(&mut self)
        ensures { self.new ≡ behind_request self.old }
    {
        self.balance = (self.balance + u64::from(self.tries.percent)).min(MOST);
    }

    /// Takes out a retry, exactly where the balance has one; else nothing changes. It says whether
    /// the retry was granted.
    pub fn spend(&mut self) -> bool
        ensures granted { result ≡ can_spend self.old }
        ensures spent { self.new ≡ behind_spend result self.old }
    {
        if self.balance < RETRY {
            return false;
        }
        self.balance -= RETRY;
        true
    }

    /// The balance, in hundredths of a retry.
    pub fn balance(&self) -> u64
        ensures { result ≡ self.now.balance }
    {
        self.balance
    }

    /// How many retries one request may have.
    pub fn most(&self) -> u32
        ensures { result ≡ self.now.tries.most }
    {
        self.tries.most
    }
}
