//! A router's configuration.
ghost use Rattle.std.specs.Prelude.{◌≡◌, string_bytes};
ghost use Rattle.std.specs.Option.{ForSome};
ghost use Rattle.retry_budget.specs.Budget.{AreAllowed};

use identifier::Rule;
use line_base::ConnectionPool;
use machine::Settings;
use retry_budget::Tries;
use std::marker::Model;

/// An IPv4 address and a port to listen on.
#[derive(Clone, Copy, Debug, PartialEq, Eq)]
pub struct Port {
    /// The IPv4 address as a number, its first part the highest eight bits.
    pub ip: u32,
    /// The port, which is not 0.
    pub port: u16,
}

/// A text of a configuration. Contracts see the list of its bytes.
pub struct Text {
    text: String,
}

impl Drop for Text {
    fn drop(self) {
        let Text { text } = self;
        drop(text);
    }
}

impl Model for Text {
    ghost use Rattle.std.specs.Prelude.{List, ℕ, string_bytes};

    ghost Value = { List ℕ };

    ghost view = { λ t. string_bytes t.text };
}

impl Text {
    /// This text. It takes no memory.
    pub fn of(text: String) -> Text
        ensures { result ≡ string_bytes text }
    {
        Text { text }
    }

    /// The text.
    pub fn as_str(&self) -> &str
        ensures { result.now ≡ self.now }
    {
        self.text.as_str()
    }
}

/// Where the feed of the namespaces is served, and by which run number.
#[derive(Clone, Copy, Debug, PartialEq, Eq)]
pub struct FeedAt {
    /// Where it listens.
    pub port: Port,
    /// The number of this run, if the configuration says one. Followers tell one run of a router
    /// from another by it.
    pub run: Option<u64>,
}

/// What a router is configured to do.
#[derive(Drop)]
pub struct Config {
    /// Where the administrator's interface listens.
    pub admin: Port,
    /// Where the interface to the namespaces listens.
    pub namerd: Port,
    /// Where the router listens.
    pub server: Port,
    /// The folder that has the addresses of the services, if there is one: a text of one or more
    /// bytes.
    pub root: Option<Text>,
    /// How requests are named, and whether their context is cleared: it is only where the
    /// configuration says so.
    pub rule: Rule,
    /// What the configuration says of clearing the context of requests, if it says anything: a
    /// router whose clients are not trusted is to say it.
    pub clear_context: Option<bool>,
    /// The namespace whose table the router follows, its own table, and when a replica counts as
    /// dead.
    pub settings: Settings,
    /// Which connections to replicas each worker keeps, if it keeps any. Where nothing is said of
    /// them, each request has a connection of its own.
    pub pool: Option<ConnectionPool>,
    /// How often a request may be tried again on another replica, if it may be.
    pub retries: Option<Tries>,
    /// The file of the access log, if there is one: a text of one or more bytes.
    pub access_log: Option<Text>,
    /// How many connections are served at a time, 1 to 256.
    pub workers: u32,
    /// What the random words of the router's choices begin with.
    pub seed: u64,
    /// Where the feed of the namespaces is served, if it is.
    pub feed: Option<FeedAt>,
    ghost allowed: { ForSome retries (λ tries. AreAllowed tries) },
}
