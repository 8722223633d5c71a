//! What is held of the feeds that came.
ghost use Rattle.std.specs.Prelude.{◌≡◌, ◌++◌, ◌∷◌, [], List, ℕ, None, option_map};
ghost use Rattle.follow_feed.specs.Feeds.{FeedValue, Run, feed_value};
ghost use Rattle.follow_feed.specs.Following.{Agrees, Followed, HasOwnNumbers, Sent, held_in};
ghost use Rattle.follow_feed.specs.Following.{is_later, is_news, taken, taken_as};

use crate::feed::Feed;

/// How a feed was taken.
#[derive(Clone, Copy, Debug, PartialEq, Eq)]
pub enum Taken {
    /// It is later than what was held, and is held now.
    Newer,
    /// It is not, and was dropped.
    Older,
}

/// Holds the latest of the feeds that it takes, in whatever order they come: the one with the
/// greatest run and, within that, the greatest place. `held_in` is how contracts see it: the feed
/// that is held, if one is.
pub struct Follower {
    held: Option<Feed>,
}

impl Drop for Follower {
    fn drop(self) {
        let Follower { held } = self;
        drop(held);
    }
}

impl Follower {
    /// Holds nothing.
    pub fn start() -> Follower
        ensures nothing { held_in result ≡ None }
        ensures follows { Followed [] (held_in result) }
    {
        Follower { held: None }
    }

    /// Takes a feed: holds it if nothing is held or it is later than what is, and else drops it.
    ///
    /// After any feeds, in any order and each any number of times, what is held is the one of
    /// them with the greatest run and place. Where one leader said them all, and no two of its
    /// runs have one number, that is the table that it had at the run and the place that are named.
    ///
    /// It takes no memory.
    pub fn take(&mut self, feed: Feed) -> Taken
        ensures told { result ≡ taken_as (held_in self.old) (feed_value feed) }
        ensures held { held_in self.new ≡ taken (held_in self.old) (feed_value feed) }
        ensures follows { (came : List FeedValue) → Followed came (held_in self.old)
            → Followed (came ++ feed_value feed ∷ []) (held_in self.new) }
        ensures agrees { (leader : List Run) → (space : List ℕ) → HasOwnNumbers leader
            → Sent leader space (feed_value feed) → Agrees leader space (held_in self.old)
            → Agrees leader space (held_in self.new) }
    {
        if self.awaits(&feed) {
            self.held = Some(feed);
            return Taken::Newer;
        }
        Taken::Older
    }

    /// What is held, if something is.
    pub fn held(&self) -> Option<&Feed>
        ensures { option_map (λ feed. feed_value feed.now) result ≡ held_in self.now }
    {
        self.held.as_ref()
    }

    /// Whether a feed is to be held in place of what is.
    fn awaits(&self, feed: &Feed) -> bool
        ensures { result ≡ is_news (held_in self.now) (feed_value feed.now) }
    {
        match &self.held {
            None => true,
            Some(held) => is_later(feed, held),
        }
    }
}

/// Whether a feed is later than another.
fn is_later(feed: &Feed, held: &Feed) -> bool
    ensures { result ≡ is_later (feed_value feed.now) (feed_value held.now) }
{
    held.run < feed.run || (held.run == feed.run && held.place < feed.place)
}
