//! Asking the router for a replica.
ghost use Rattle.std.specs.Prelude.{◌≡◌, ◌<◌, IfOk, IfSome, OnOk, OnErr};
ghost use Rattle.bind_cache.specs.Stored.{kept_of};
ghost use Rattle.dtab_table.specs.Dtab.{rules_of};
ghost use Rattle.line_base.specs.Clocks.{Tells};
ghost use Rattle.machine.specs.Code.{ask_of};
ghost use Rattle.machine.specs.Values.{PickValue};
ghost use Rattle.name_tree.specs.Path.{canon_path};
ghost use Rattle.router.specs.declared.names.Names.{Names as NamesOf};
ghost use Rattle.router.specs.Changing.{WasWorkedOut};
ghost use Rattle.proxy_session.specs.Asking.{Finding, FindingAnew, StopsAnew, StopsAsking};
ghost use Rattle.proxy_session.specs.Asking.{behind_draw, drawn};
ghost use Rattle.proxy_session.specs.Callers.{SeesMore, caller_of};
ghost use Rattle.proxy_session.specs.AskAnswers.{Picks, PicksOnce, ReturnsSome, Says, Sees};
ghost use Rattle.proxy_session.specs.AskAnswers.{StopsPick, client_in, fresh_in, picked_of};
ghost use Rattle.proxy_session.specs.AskAnswers.{residual_in, said_in};
ghost use Rattle.proxy_session.specs.Ways.{is_first};

use crate::context::Context;
use crate::{Bytes, Mem};
use bind_cache::Binding;
use line_base::Clock;
use machine::{Ask, Why};
use name_tree::{Path, write_path};
use rand_core::utils::NextWord;
use rand_pcg::Pcg64;
use router::{Answer, Choice, Names, Naming, Pass, Peek, Router};
use std::alloc::Global;
use std::marker::Brand;
use std::sync::Wait;
use std::sync::ledger::{Blank, Ledger};
use step_count::Steps;

/// Where the texts of a replica's names are.
#[derive(Drop)]
pub(crate) enum Texts {
    /// In the room for names that was handed in.
    Kept,
    /// Here.
    Own {
        /// The canonical text of the labels that named its cluster.
        client: Bytes,
        /// That of the labels behind those.
        residual: Bytes,
    },
}

/// The replica that was picked for an ask, if there is one.
#[derive(Drop)]
pub(crate) enum ReplicaPick {
    /// There is one.
    Replica {
        /// Which.
        choice: Choice,
        /// Its names.
        texts: Texts,
    },
    /// There is none.
    None(Why),
}

/// An ask that was answered.
pub(crate) struct AnsweredAsk {
    /// Its answer.
    pub(crate) pick: ReplicaPick,
    /// Whether a delegation was kept for it.
    pub(crate) hit: bool,
}

impl Drop for AnsweredAsk {
    fn drop(self) {
        let AnsweredAsk { pick, hit: _ } = self;
        drop(pick);
    }
}

/// The answer to a second ask, of a pass that was let in.
#[derive(Drop)]
enum AdmittedAnswer {
    /// A replica.
    Replica {
        /// Which.
        choice: Choice,
        /// The labels that named its cluster.
        client: Path,
        /// The labels behind those.
        residual: Path,
        /// The delegation that was worked out for it, where none was kept.
        fresh: Option<Binding>,
    },
    /// There is none.
    None {
        /// Why.
        why: Why,
        /// The delegation that was worked out for it, where none was kept.
        fresh: Option<Binding>,
    },
}

impl AdmittedAnswer {
    /// An answer of the router, where the pass was let in.
    fn of(answer: Answer) -> Option<AdmittedAnswer>
        ensures { result ≡ picked_of answer }
    {
        match answer {
            Answer::Picked {
                choice,
                client,
                residual,
                fresh,
            } => Some(AdmittedAnswer::Replica {
                choice,
                client,
                residual,
                fresh,
            }),
            Answer::None {
                why,
                place: _,
                fresh,
            } => Some(AdmittedAnswer::None { why, fresh }),
            Answer::NoEntry => None,
        }
    }
}

/// What is kept for an ask, as a pass saw it that was let in.
#[derive(Clone, Copy)]
enum AdmittedPeek {
    /// A delegation, and there is this replica. Its names were written.
    Hit(Choice),
    /// A delegation, and there is no replica.
    None(Why),
    /// Nothing.
    Miss,
}

/// Draws an ask anew: with the generator's next three words, and at the clock's next moment.
pub(crate) fn draw<C: Clock>(ask: &mut Ask, clock: &mut C, words: &mut Pcg64)
    ensures told { Tells (C.to_come clock.old) (C.to_come clock.new) ask.new.moment }
    ensures words { words.new ≡ behind_draw words.old }
    ensures ask { ask_of ask.new ≡ drawn ask.old.path (rules_of ask.old.local) ask.new.moment
        words.old }
    ensures path { ask.new.path ≡ ask.old.path }
    ensures local { ask.new.local ≡ ask.old.local }
{
    let branch = words.next_word();
    let first = words.next_word();
    let second = words.next_word();
    ask.words = [branch, first, second];
    ask.moment = clock.now();
}

/// Finds a replica: by what is kept for the ask, and else by a second ask, which works it out. What
/// that worked out is given back, to be kept. An `Err` comes only where nothing was kept.
pub(crate) fn find<J: Naming, R: Wait>(
    context: &Context<'_, J, R>,
    pass: &mut Pass<J>,
    ask: &Ask,
    names: &mut Names,
) -> Mem<AnsweredAsk>
    ensures ok { IfOk result (λ a. (said : PickValue) × (finds : Finding J.settings
        (caller_of pass.old) (caller_of pass.new) (ask_of ask.now) said)
        × Says said names.new a.pick × (a.hit ≡ is_first finds)) }
    ensures err { OnErr result (StopsAsking J.settings (caller_of pass.old) (caller_of pass.new)
        (ask_of ask.now)) }
{
    match peek(context, pass, ask, names) {
        AdmittedPeek::Hit(choice) => Ok(AnsweredAsk {
            pick: ReplicaPick::Replica {
                choice,
                texts: Texts::Kept,
            },
            hit: true,
        }),
        AdmittedPeek::None(why) => Ok(AnsweredAsk {
            pick: ReplicaPick::None(why),
            hit: true,
        }),
        AdmittedPeek::Miss => match find_anew(context, pass, ask) {
            Ok(pick) => Ok(AnsweredAsk { pick, hit: false }),
            Err(want) => Err(want),
        },
    }
}

/// Asks for what is kept, as often as it takes to be let in.
fn peek<J: Naming, R: Wait>(
    context: &Context<'_, J, R>,
    pass: &mut Pass<J>,
    ask: &Ask,
    names: &mut Names,
) -> AdmittedPeek
    ensures { Sees J.settings (caller_of pass.old) (caller_of pass.new) (ask_of ask.now) names.new
        result }
{
    'asking: for _ in context.rt.forever() {
        match context.router.peek(pass, ask, names) {
            Peek::Hit(choice) => return AdmittedPeek::Hit(choice),
            Peek::HitNone { why, place: _ } => return AdmittedPeek::None(why),
            Peek::Miss(_) => return AdmittedPeek::Miss,
            Peek::NoEntry => {}
        }
    }
    unreachable!()
}

/// Finds a replica by a second ask. The names that were handed in stay as they are.
fn find_anew<J: Naming, R: Wait>(
    context: &Context<'_, J, R>,
    pass: &mut Pass<J>,
    ask: &Ask,
) -> Mem<ReplicaPick>
    ensures ok { IfOk result (λ f. (said : PickValue) × FindingAnew J.settings (caller_of pass.old)
        (caller_of pass.new) (ask_of ask.now) said × ((names : NamesOf) → Says said names f)) }
    ensures err { OnErr result (StopsAnew J.settings (caller_of pass.old) (caller_of pass.new)
        (ask_of ask.now)) }
{
    match pick(context, pass, ask) {
        Ok(answer) => keep(context, pass, answer),
        Err(want) => Err(want),
    }
}

/// Gives back what a second ask worked out, and writes the names of the replica that it found.
fn keep<J: Naming, R: Wait>(
    context: &Context<'_, J, R>,
    pass: &mut Pass<J>,
    answer: AdmittedAnswer,
) -> Mem<ReplicaPick>
    requires { IfSome (fresh_in answer) (λ b. WasWorkedOut pass.old (kept_of b)) }
    ensures ok { IfOk result (λ f. ReturnsSome J.settings (caller_of pass.old) (caller_of pass.new)
        (fresh_in answer) × ((names : NamesOf) → Says (said_in answer) names f)) }
    ensures err { OnErr result (SeesMore (caller_of pass.old) (caller_of pass.new)) }
{
    match answer {
        AdmittedAnswer::Replica {
            choice,
            client,
            residual,
            fresh,
        } => {
            let texts = texts_of(context.alloc, &client, &residual);
            drop(client);
            drop(residual);
            match texts {
                Ok(texts) => match give_back(context, pass, fresh) {
                    Ok(()) => Ok(ReplicaPick::Replica { choice, texts }),
                    Err(want) => {
                        drop(texts);
                        Err(want)
                    }
                },
                Err(want) => {
                    drop(fresh);
                    Err(want)
                }
            }
        }
        AdmittedAnswer::None { why, fresh } => match give_back(context, pass, fresh) {
            Ok(()) => Ok(ReplicaPick::None(why)),
            Err(want) => Err(want),
        },
    }
}

/// The texts of a replica's names.
fn texts_of(alloc: Global, client: &Path, residual: &Path) -> Mem<Texts>
    ensures { IfOk result (λ t. (names : NamesOf) → (client_in names t ≡ canon_path client.now)
        × (residual_in names t ≡ canon_path residual.now)) }
{
    Ok(Texts::Own {
        client: write_path(alloc, client)?,
        residual: write_path(alloc, residual)?,
    })
}

/// Asks for a replica, as often as it takes to be let in.
fn pick<J: Naming, R: Wait>(
    context: &Context<'_, J, R>,
    pass: &mut Pass<J>,
    ask: &Ask,
) -> Mem<AdmittedAnswer>
    ensures said { IfOk result (Picks J.settings (caller_of pass.old) (caller_of pass.new)
        (ask_of ask.now)) }
    ensures fresh { IfOk result
        (λ a. IfSome (fresh_in a) (λ b. WasWorkedOut pass.new (kept_of b))) }
    ensures want { OnErr result (StopsPick J.settings (caller_of pass.old) (caller_of pass.new)
        (ask_of ask.now)) }
{
    'asking: for _ in context.rt.forever() {
        match pick_once::<J, Brand>(context.alloc, context.router, pass, ask, Blank::new(1)) {
            Ok(Some(answer)) => return Ok(answer),
            Ok(None) => {}
            Err(want) => return Err(want),
        }
    }
    unreachable!()
}

/// Asks for a replica once, where the pass is let in. The steps that it takes are not counted on.
fn pick_once<J: Naming, L: Ledger>(
    alloc: Global,
    router: &Router<J>,
    pass: &mut Pass<J>,
    ask: &Ask,
    blank: Blank,
) -> Mem<Option<AdmittedAnswer>>
    requires name { blank.name ≡ L.name }
    requires parts { blank.parts ≡ L.parts }
    requires some { 0 < blank.parts }
    ensures said { IfOk result (PicksOnce J.settings (caller_of pass.old) (caller_of pass.new)
        (ask_of ask.now)) }
    ensures fresh { IfOk result (λ p. IfSome p (λ a. IfSome (fresh_in a)
        (λ b. WasWorkedOut pass.new (kept_of b)))) }
    ensures want { OnErr result (StopsPick J.settings (caller_of pass.old) (caller_of pass.new)
        (ask_of ask.now)) }
{
    let mut steps = Steps::<L>::start(blank);
    match router.pick(alloc, pass, ask, &mut steps) {
        Ok(answer) => Ok(AdmittedAnswer::of(answer)),
        Err(want) => Err(want),
    }
}

/// Gives back a delegation that was worked out, to be kept, if there is one.
fn give_back<J: Naming, R: Wait>(
    context: &Context<'_, J, R>,
    pass: &mut Pass<J>,
    fresh: Option<Binding>,
) -> Mem<()>
    requires { IfSome fresh (λ b. WasWorkedOut pass.old (kept_of b)) }
    ensures ok { OnOk result (ReturnsSome J.settings (caller_of pass.old) (caller_of pass.new)
        fresh) }
    ensures err { OnErr result (SeesMore (caller_of pass.old) (caller_of pass.new)) }
{
    let Some(binding) = fresh else {
        return Ok(());
    };
    match context
        .router
        .remember(context.rt, context.alloc, pass, binding)
    {
        Ok(_) => Ok(()),
        Err(want) => Err(want),
    }
}
