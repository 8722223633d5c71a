//! The settings of a budget of retries.
ghost use Rattle.std.specs.Prelude.{◌≡◌};

/// How often requests are tried again: the settings of a [`Budget`](crate::Budget).
#[derive(Clone, Copy, Debug, PartialEq, Eq)]
pub struct Tries {
    /// How many hundredths of a retry each request pays in, up to 100. With 20 every fifth request
    /// may be tried again in the long run.
    pub percent: u32,
    /// How many retries there are before any request has paid in, up to 100.
    pub reserve: u32,
    /// How many retries one request may have, up to 10.
    pub most: u32,
}

impl Tries {
    ghost use Rattle.std.specs.Prelude.{◌↔◌, IsTrue};
    ghost use Rattle.retry_budget.specs.Budget.{AreAllowed};

    /// Whether a budget may have these settings: hundredths and a reserve of at most 100, and at
    /// most 10 retries a request.
    pub fn is_allowed(&self) -> bool
        ensures { IsTrue result ↔ AreAllowed self.now }
    {
        self.percent <= 100 && self.reserve <= 100 && self.most <= 10
    }
}

impl Default for Tries {
    ghost is_default = { λ t. t ≡ record { percent = 20; reserve = 10; most = 3 } };

    /// 20 hundredths a request, a reserve of 10, and 3 retries a request.
    fn default() -> Tries {
        Tries {
            percent: 20,
            reserve: 10,
            most: 3,
        }
    }
}
