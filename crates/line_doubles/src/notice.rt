//! When a connection in memory says that its listeners are closing, or that nothing came.
ghost use Rattle.std.specs.Prelude.{◌≡◌, ◌↔◌, IsTrue};
ghost use Rattle.line_doubles.specs.Memory.{IsQuiet, is_due, questioned, quieted};

use std::marker::Model;

/// When a connection says that its listeners are closing, from the question of a number on, and at
/// which questions it says that nothing came. Questions are numbered from 0.
pub(crate) struct Notice {
    from: Option<u64>,
    quiet: Vec<u64>,
    asked: u64,
    told: u64,
    quiets: u64,
}

impl Drop for Notice {
    fn drop(self) {
        let Notice {
            from: _,
            quiet,
            asked: _,
            told: _,
            quiets: _,
        } = self;
        drop(quiet);
    }
}

impl Model for Notice {
    ghost use Rattle.line_doubles.specs.Memory.{Noticing};

    ghost Value = { Noticing };

    ghost view = { λ n. record {
      from = n.from;
      quiet = n.quiet.items;
      asked = n.asked;
      told = n.told;
      quiets = n.quiets;
    } };
}

impl Notice {
    /// They are closing from this question on, if from any, and nothing comes at these questions.
    pub(crate) fn of(from: Option<u64>, quiet: Vec<u64>) -> Notice
        ensures { result ≡ record {
          from = from;
          quiet = quiet.items;
          asked = 0;
          told = 0;
          quiets = 0;
        } }
    {
        Notice {
            from,
            quiet,
            asked: 0,
            told: 0,
            quiets: 0,
        }
    }

    /// From which question on they are closing, if from any.
    pub(crate) fn closing_from(&self) -> Option<u64>
        ensures { result ≡ self.now.from }
    {
        self.from
    }

    /// How often it was said that they are closing.
    pub(crate) fn told(&self) -> u64
        ensures { result ≡ self.now.told }
    {
        self.told
    }

    /// How often it was said that nothing came.
    pub(crate) fn quiets(&self) -> u64
        ensures { result ≡ self.now.quiets }
    {
        self.quiets
    }

    /// Counts that it was said that nothing came.
    pub(crate) fn count_quiet(&mut self)
        ensures { self.new ≡ quieted self.old }
    {
        self.quiets = self.quiets.saturating_add(1);
    }

    /// Whether the next question is one at which nothing comes.
    pub(crate) fn is_quiet(&self) -> bool
        ensures { IsTrue result ↔ IsQuiet self.now }
    {
        self.quiet.contains(&self.asked)
    }

    /// Counts a question, and says whether they are closing.
    pub(crate) fn ask(&mut self) -> bool
        ensures due { result ≡ is_due self.old }
        ensures counted { self.new ≡ questioned self.old }
    {
        let is_due = match self.from {
            Some(from) => from <= self.asked,
            None => false,
        };
        self.asked = self.asked.saturating_add(1);
        if is_due {
            self.told = self.told.saturating_add(1);
        }
        is_due
    }
}
