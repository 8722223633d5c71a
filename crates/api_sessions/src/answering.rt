//! What is done for a request, and what it is answered.
ghost use Rattle.std.specs.Prelude.{◌≡◌, IfOk, OnErr, false};
ghost use Rattle.machine.specs.Code.{change_of, look_value, reply_value};
ghost use Rattle.machine.specs.State.{IsSoundChange};
ghost use Rattle.machine.specs.Values.{get_table, services_at};
ghost use Rattle.router.specs.Passes.{number_in};
ghost use Rattle.api_wire.specs.Delivery.{IsWritten};
ghost use Rattle.api_wire.specs.Demand.{IsSoundDemand, demand_value};
ghost use Rattle.api_wire.specs.Telling.{response_to};
ghost use Rattle.http_wire.specs.Target.{Form, IsServed};
ghost use Rattle.api_sessions.specs.Asked.{IsSoundAsked, asked_of, asked_value};
ghost use Rattle.api_sessions.specs.Answering.{AnswersAs, IsAltered, IsAsked, IsCarriedOut, IsDone};
ghost use Rattle.api_sessions.specs.Answering.{IsSaid, IsScraped, IsShown, IsTaken, Leaves};
ghost use Rattle.api_sessions.specs.Answering.{LeavesAs, LeavesDone, MayHaveChanged};
ghost use Rattle.api_sessions.specs.Answering.{MayHaveLooked, MayHaveScraped, TellsMetrics};
ghost use Rattle.api_sessions.specs.Answering.{TellsFeed, sources_of};

use crate::asked::{Asked, asked_of};
use crate::context::Context;
use crate::looking::{Told, look_at};
use crate::which::Which;
use crate::{Bytes, Mem};
use addr_book::Name;
use admin_api::metrics_response;
use api_wire::{ApiReply, Delivery, Demand, delivery_of, response_to, write, write_last};
use follow_feed::told_feed;
use http_wire::{Head, TargetFault, read_target};
use machine::{Change, Look, Reply};
use router::{Naming, Pass};
use scrape::{Scrape, Sums};
use std::alloc::{AllocError, Global};
use std::sync::Wait;

/// Answers a request of this interface, with this body. It makes one change or one look, at one
/// point of the history, or nothing where the request is refused before, or asks whether the
/// program runs, whether it is ready for more connections, or that it stop. For the metrics it
/// looks at the services at the scraper's moment, and reads what the workers count behind that.
/// Where it is the `last` that its connection carries, the response closes that.
///
/// The head has to be one that [`read_target`] takes: `IsTaken` says that its method is not
/// CONNECT, and its target is served in some form.
///
/// # Errors
/// Out of memory. What was asked for was done then, or nothing was, or of the metrics a part was
/// read.
pub fn answer<J: Naming, R: Wait, X: Scrape>(
    context: &Context<'_, J, R>,
    pass: &mut Pass<J>,
    scraper: &mut X,
    which: Which,
    head: &Head,
    body: &Bytes,
    last: bool,
) -> Mem<ApiReply>
    requires { IsTaken head.now }
    ensures number { number_in pass.new ≡ number_in pass.old }
    ensures answered { IfOk result (AnswersAs which head.now last body.now.items
        (sources_of pass.old (X.told scraper.old)) (sources_of pass.new (X.told scraper.new))) }
    ensures want { OnErr result (LeavesAs which head.now body.now.items
        (sources_of pass.old (X.told scraper.old)) (sources_of pass.new (X.told scraper.new))) }
{
    match asked_by(context.alloc, which, head, body.as_slice()) {
        Ok(asked) => do_asked(context, pass, scraper, asked, delivery_of(head, last)),
        Err(want) => Err(want),
    }
}

/// What a request of this interface asks for, by its head and its body.
fn asked_by(alloc: Global, which: Which, head: &Head, body: &[u8]) -> Mem<Asked>
    requires { IsTaken head.now }
    ensures { IfOk result (λ asked. (form : Form)
        → IsServed head.now.method head.now.target form
        → asked_value asked ≡ asked_of which head.now form.line body.now) }
{
    match read_target(alloc, head) {
        Ok(target) => {
            let line = target.line.as_slice();
            asked_of(alloc, which, head, line, body)
        }
        Err(TargetFault::OutOfMemory) => Err(AllocError),
        Err(TargetFault::Connect) => unreachable!(),
        Err(TargetFault::NoTarget) => unreachable!(),
    }
}

/// Does what is asked for, and answers it.
fn do_asked<J: Naming, R: Wait, X: Scrape>(
    context: &Context<'_, J, R>,
    pass: &mut Pass<J>,
    scraper: &mut X,
    asked: Asked,
    delivery: Delivery,
) -> Mem<ApiReply>
    requires { IsSoundAsked (asked_value asked) }
    ensures number { number_in pass.new ≡ number_in pass.old }
    ensures done { IfOk result (IsDone (asked_value asked) delivery
        (sources_of pass.old (X.told scraper.old)) (sources_of pass.new (X.told scraper.new))) }
    ensures want { OnErr result (LeavesDone (asked_value asked)
        (sources_of pass.old (X.told scraper.old)) (sources_of pass.new (X.told scraper.new))) }
{
    match asked {
        Asked::Metrics => tell_metrics(context, pass, scraper, delivery),
        Asked::Demand(demand) => carry_out(context, pass, demand, delivery),
        Asked::Feed { run, name } => show(context, pass, run, name, delivery),
    }
}

/// Does what is asked of the router, and answers it. Where there was no memory, it was done, or
/// nothing was.
fn carry_out<J: Naming, R: Wait>(
    context: &Context<'_, J, R>,
    pass: &mut Pass<J>,
    demand: Demand,
    delivery: Delivery,
) -> Mem<ApiReply>
    requires { IsSoundDemand (demand_value demand) }
    ensures number { number_in pass.new ≡ number_in pass.old }
    ensures done { IfOk result (IsCarriedOut (demand_value demand) delivery pass.old pass.new) }
    ensures want { OnErr result (Leaves (demand_value demand) pass.old pass.new) }
{
    match demand {
        Demand::Answer(response) => write(context.alloc, &response, delivery),
        Demand::Stop(response) => write_last(context.alloc, &response, delivery),
        Demand::Change(change) => alter(context, pass, change, delivery),
        Demand::Look(look) => ask(context, pass, &look, delivery),
    }
}

/// Makes a change, and tells the reply.
fn alter<J: Naming, R: Wait>(
    context: &Context<'_, J, R>,
    pass: &mut Pass<J>,
    change: Change,
    delivery: Delivery,
) -> Mem<ApiReply>
    requires { IsSoundChange (change_of change) }
    ensures number { number_in pass.new ≡ number_in pass.old }
    ensures altered { IfOk result (IsAltered (change_of change) delivery pass.old pass.new) }
    ensures want { OnErr result (MayHaveChanged (change_of change) pass.old pass.new) }
{
    match context
        .router
        .change(context.rt, context.alloc, pass, change)
    {
        Ok(said) => tell(context.alloc, said, delivery),
        Err(want) => Err(want),
    }
}

/// Looks, and tells the reply.
fn ask<J: Naming, R: Wait>(
    context: &Context<'_, J, R>,
    pass: &mut Pass<J>,
    look: &Look,
    delivery: Delivery,
) -> Mem<ApiReply>
    ensures number { number_in pass.new ≡ number_in pass.old }
    ensures asked { IfOk result (IsAsked (look_value look.now) delivery pass.old pass.new) }
    ensures want { OnErr result (MayHaveLooked (look_value look.now) pass.old pass.new) }
{
    match look_at(context, pass, look) {
        Ok(told) => tell_look(context.alloc, told, delivery),
        Err(want) => Err(want),
    }
}

/// The reply that tells what a look told.
fn tell_look(alloc: Global, told: Told, delivery: Delivery) -> Mem<ApiReply>
    ensures { IfOk result (IsWritten (response_to delivery.as_dtab (reply_value told.reply))
        delivery false) }
{
    let Told {
        place: _,
        reply,
        kept: _,
    } = told;
    tell(alloc, reply, delivery)
}

/// The reply that tells what the state replied.
fn tell(alloc: Global, said: Reply, delivery: Delivery) -> Mem<ApiReply>
    ensures { IfOk result (IsWritten (response_to delivery.as_dtab (reply_value said)) delivery
        false) }
{
    let response = response_to(alloc, said, delivery.as_dtab)?;
    write(alloc, &response, delivery)
}

/// Tells the feed of a namespace.
fn show<J: Naming, R: Wait>(
    context: &Context<'_, J, R>,
    pass: &mut Pass<J>,
    run: u64,
    name: Name,
    delivery: Delivery,
) -> Mem<ApiReply>
    ensures number { number_in pass.new ≡ number_in pass.old }
    ensures shown { IfOk result (IsShown run name delivery pass.old pass.new) }
    ensures want { OnErr result (MayHaveLooked (get_table name) pass.old pass.new) }
{
    let look = Look::Get { name };
    match look_at(context, pass, &look) {
        Ok(told) => write_feed(context.alloc, run, told, delivery),
        Err(want) => Err(want),
    }
}

/// The reply that tells what a look at a namespace told.
fn write_feed(alloc: Global, run: u64, told: Told, delivery: Delivery) -> Mem<ApiReply>
    ensures { IfOk result (TellsFeed run told delivery) }
{
    let Told {
        place,
        reply,
        kept: _,
    } = told;
    let response = told_feed(alloc, run, place, reply)?;
    write(alloc, &response, delivery)
}

/// Tells all metrics: those of the state and of its services at one point of the history, as they
/// are at the scraper's moment, and what the workers count, which is read behind the look.
fn tell_metrics<J: Naming, R: Wait, X: Scrape>(
    context: &Context<'_, J, R>,
    pass: &mut Pass<J>,
    scraper: &mut X,
    delivery: Delivery,
) -> Mem<ApiReply>
    ensures number { number_in pass.new ≡ number_in pass.old }
    ensures scraped { IfOk result (IsScraped delivery (sources_of pass.old (X.told scraper.old))
        (sources_of pass.new (X.told scraper.new))) }
    ensures want { OnErr result (MayHaveScraped (sources_of pass.old (X.told scraper.old))
        (sources_of pass.new (X.told scraper.new))) }
{
    let moment = scraper.moment();
    match look_at_services(context, pass, moment) {
        Ok(told) => {
            let sums = scraper.sums();
            write_metrics(context.alloc, told, &sums, delivery)
        }
        Err(want) => Err(want),
    }
}

/// Looks at the services as they are at a moment.
fn look_at_services<J: Naming, R: Wait>(
    context: &Context<'_, J, R>,
    pass: &mut Pass<J>,
    moment: u64,
) -> Mem<Told>
    ensures number { number_in pass.new ≡ number_in pass.old }
    ensures said { IfOk result (IsSaid (services_at moment) pass.old pass.new) }
    ensures want { OnErr result (MayHaveLooked (services_at moment) pass.old pass.new) }
{
    let look = Look::Services { moment };
    look_at(context, pass, &look)
}

/// The reply with the text of the metrics, by what a look at the services told and by these sums.
fn write_metrics(alloc: Global, told: Told, sums: &Sums, delivery: Delivery) -> Mem<ApiReply>
    ensures { IfOk result (TellsMetrics told sums.now delivery) }
{
    let Told {
        place: _,
        reply,
        kept,
    } = told;
    let response = metrics_response(alloc, reply, kept, sums)?;
    write(alloc, &response, delivery)
}
