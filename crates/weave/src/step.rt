//! Steps, and what they tell.
use machine::{Ask, Change, Chosen, Look, Reply};

/// What a pass asks without changing anything.
pub enum Asked {
    /// For a replica.
    Pick(Ask),
    /// What the state has.
    Look(Look),
}

impl Drop for Asked {
    fn drop(self) {
        match self {
            Asked::Pick(ask) => drop(ask),
            Asked::Look(look) => drop(look),
        }
    }
}

/// A step of one pass, or a meeting of two. Passes go by their numbers, from 0 on.
pub enum Step {
    /// A pass asks for a change, which is published where the state accepts it.
    Publish(u32, Change),
    /// A pass asks something. Its answer comes later, and is that of this point; it takes the place
    /// of one that is still waiting.
    Enter(u32, Asked),
    /// A pass is answered.
    Answer(u32),
    /// A pass offers what it worked out last to the cache.
    Remember(u32),
    /// Two passes learn what was published.
    Meet(u32, u32),
}

impl Drop for Step {
    fn drop(self) {
        match self {
            Step::Publish(_, change) => drop(change),
            Step::Enter(_, asked) => drop(asked),
            Step::Answer(_) => {}
            Step::Remember(_) => {}
            Step::Meet(_, _) => {}
        }
    }
}

/// What a step tells.
pub enum Told {
    /// The answer to a change or a look, with how many changes stood before it.
    Reply(u64, Reply),
    /// The answer to a pick, with how many changes stood before it.
    Chosen(u64, Chosen),
    /// A delegation is kept from then on.
    Kept,
    /// It isn't.
    NotKept,
    /// Nothing: a question waits for its answer, passes met, there was nothing to answer or to
    /// remember, or there is no such pass.
    Nothing,
}

impl Drop for Told {
    fn drop(self) {
        match self {
            Told::Reply(_, reply) => drop(reply),
            Told::Chosen(_, chosen) => drop(chosen),
            Told::Kept => {}
            Told::NotKept => {}
            Told::Nothing => {}
        }
    }
}

/// What steps told, in their order. Contracts see it as `told_list list`.
pub struct ToldList {
    items: Vec<Told>,
}

impl Drop for ToldList {
    fn drop(self) {
        let ToldList { items } = self;
        drop(items);
    }
}

impl ToldList {
    ghost use Rattle.std.specs.Prelude.{◌≡◌, map};
    ghost use Rattle.weave.specs.Code.{told_list, told_value};

    /// The list of these.
    pub fn of(items: Vec<Told>) -> ToldList
        ensures { told_list result ≡ map told_value items.items }
    {
        ToldList { items }
    }

    /// What each step told.
    pub fn items(&self) -> &[Told]
        ensures { map told_value result.now ≡ told_list self.now }
    {
        &self.items
    }
}
