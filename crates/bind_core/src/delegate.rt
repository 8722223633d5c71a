//! Delegation, with a stack of what is left to try in place of a recursion.
ghost use Rattle.std.specs.Prelude.{◌≡◌, ◌+◌, ◌*◌, ◌<◌, ◌≤◌, ◌↔◌, ℕ, List, [], length, min, false};
ghost use Rattle.std.specs.Prelude.{IfOk};
ghost use Rattle.dtab_table.specs.TableCanon.{AreSoundRules};
ghost use Rattle.addr_book.specs.Found.{IsFilled, IsBounded};
ghost use Rattle.dtab_table.specs.Rules.{Rule};
ghost use Rattle.addr_book.specs.Namer.{named_in};
ghost use Rattle.bind_core.specs.Delegation.{Names, lookup, walk, named_ending, IfBound};
ghost use Rattle.bind_core.specs.Outcome.{IsDelegated, ending_of, most_for, paths_for, items_for};
ghost use Rattle.bind_core.specs.Rewritten.{labels_of, tree_of};
ghost use Rattle.bind_core.specs.Tables.{rules_in};
ghost use Rattle.bind_core.specs.Depth.{greatest_depth, turns_per_lookup};
ghost use Rattle.bind_core.specs.Turns.{IsPaid, IsDue, CanLookUp, IsTurn, IsFirst};
ghost use Rattle.bind_core.specs.Stack.{IsStep, IsAnswer, Fits, rules_at, names_at, behind};
ghost use Rattle.bind_core.specs.Stack.{ends_all, frame_on, frame_work, choice_on, choice_work};
ghost use Rattle.bind_core.specs.Stack.{union_on, union_work, lookup_on, path_work, tree_work};
ghost use Rattle.bind_core.specs.Stack.{list_work, trees_left};

use crate::Mem;
use crate::frame::{Alternatives, FirstOf, Frame, TreesLeft, Union, next_weighted};
use crate::gathered::Gathered;
use crate::outcome::{Delegated, Outcome, Wanted};
use crate::rewritten::{HeldPath, MOST_PATH_BYTES, Rewritten};
use crate::tables::Tables;
use crate::trace::{PathList, Trace};
use crate::visits::Visits;
use crate::work::{Scene, Task, Work};
use addr_book::{Book, Bound, Leaf, name_answer};
use name_tree::{Path, Tree};
use std::alloc::{AllocError, Global};
use std::sync::ledger::Ledger;
use step_count::Steps;

/// The most lookups in a chain.
const MOST_DEEP: u32 = 100;

/// The most lookups in a delegation.
const MOST_WIDE: u32 = 10_000;

/// The most lookups of which the paths are told.
const MOST_ASKED: u32 = 256;

/// What a path comes to in the tables, and which lookups that takes (Finagle user guide, "Names and
/// Naming in Finagle").
///
/// A lookup tries, in order, the trees of all entries whose prefix matches the path, the last entry
/// first, so those of the request's own table first and those of the namespace last, each with the
/// rest of the path behind every leaf; and then what the path names by itself. The first that isn't
/// negative is the outcome. A leaf is looked up in turn, and an alternation is the first of its
/// trees that isn't negative: `!` and `$` stop the search.
///
/// A union evaluates its branches in order, but for those of weight 0. It is bound to the bound
/// ones with their weights, in their order; negative, empty and failing ones are dropped. Where all
/// are dropped, it is failing if one fails, else empty if one is empty, else negative.
///
/// A path is too deep where it is reached after 100 lookups in its chain, or where its canonical
/// text is longer than 2,048 bytes, and that ends the whole delegation at once, in a branch of a
/// union too. A delegation that needs more than 10,000 lookups is too wide, whatever else it would
/// come to; it ends as soon as that is known.
///
/// Each union in a bound outcome has a branch, and no weight in it is 0. Where the table's trees
/// are sound, as those of a text are, each has at most 65,536 branches, with weights below 10^12.
///
/// With [`Wanted::Asked`] the paths that were looked up are told, where there are at most 256; with
/// [`Wanted::Trace`] each lookup, where the outcome isn't too wide.
///
/// # Cost
/// Each lookup ticks `steps` at least once, and so does each turn of the loop. There are at most
/// `12 * (depth + 1) * (cost + 1)` ticks, where `depth` is the greatest depth to which alternations
/// and unions stand in each other in the tables' trees. So what a delegation takes is bounded by
/// its lookups and by the bytes of the paths that are looked up:
///
/// - A lookup costs one pass over the text of its path,
///   [`Dtab::lean_matching`](dtab_table::Dtab::lean_matching) in each of the three tables, and a
///   look-up in the book. It takes memory for a reference to each entry that matches, for a copy
///   of the path where the leaf that it was reached by had a rest behind it, and for an item where
///   a list is wanted and kept.
/// - A tree that is tried costs a turn of a loop, whatever stands in it or behind it. Of each tree
///   the tables keep what makes lookups, and that is tried: marks in front of others, what stands
///   behind a `!` or a `$` and branches of weight 0 cost nothing. The trees are lent by the tables:
///   nothing is copied of alternatives and branches that aren't reached.
/// - A leaf whose own text is longer than 2,048 bytes is not joined with a rest.
///
/// One chain is followed at a time: what is held is a frame for each of its lookups, alternations
/// and unions that have something left to try, the paths of these, each once, and the bound
/// branches of those unions.
pub fn bind<L: Ledger>(
    alloc: Global,
    tables: &Tables<'_>,
    book: &Book,
    path: &Path,
    wanted: Wanted,
    steps: &mut Steps<L>,
) -> Mem<Delegated>
    ensures delegated { IfOk result
        (IsDelegated (rules_in tables.now) (named_in book.now) path.now wanted) }
    ensures cost { IfOk result (λ d. d.cost ≤ 10001) }
    ensures width { IfOk result (λ d. (d.outcome ≡ Outcome.TooWide) ↔ (d.cost ≡ 10001)) }
    ensures counted { IfOk result (λ d. steps.old + min d.cost 10000 ≤ steps.new) }
    ensures turns { IfOk result (λ d. steps.new
        ≤ steps.old + turns_per_lookup (greatest_depth (rules_in tables.now)) * (d.cost + 1)) }
    ensures filled { IfOk result (λ d. IfBound IsFilled (ending_of d.outcome)) }
    ensures bounded { AreSoundRules (rules_in tables.now)
        → IfOk result (λ d. IfBound IsBounded (ending_of d.outcome)) }
{
    let scene = Scene { tables, book };
    let mut work = Work::new(alloc, most_kept(wanted));
    let outcome = evaluate(alloc, &scene, &mut work, path, MOST_DEEP, steps)?;
    let cost = work.count;
    let Ok(lists) = told_lists(alloc, wanted, work.into_visits()) else {
        drop(outcome);
        return Err(AllocError);
    };
    let (asked, trace) = lists;
    Ok(Delegated {
        outcome,
        cost,
        asked,
        trace,
    })
}

/// How many lookups are kept for what is wanted.
fn most_kept(wanted: Wanted) -> u32
    ensures { result ≡ most_for wanted }
{
    match wanted {
        Wanted::Neither => 0,
        Wanted::Asked => MOST_ASKED,
        Wanted::Trace => MOST_WIDE,
    }
}

/// The lists that are wanted, of the lookups that were kept.
fn told_lists(alloc: Global, wanted: Wanted, visits: Visits) -> Mem<(PathList, Trace)>
    ensures asked { IfOk result (λ lists. lists.0 ≡ paths_for wanted visits.items.items) }
    ensures trace { IfOk result (λ lists. lists.1 ≡ items_for wanted visits.items.items) }
{
    let no_paths = PathList::of(Vec::new(alloc));
    let no_trace = Trace::of(Vec::new(alloc));
    match wanted {
        Wanted::Neither => Ok((no_paths, no_trace)),
        Wanted::Asked => Ok((visits.into_paths()?, no_trace)),
        Wanted::Trace => Ok((no_paths, visits.into_trace())),
    }
}

/// What a path comes to, with so many lookups left in its chain.
///
/// Each turn does the next task. What is told goes to the last frame; where it ends all, the frames
/// that are left are let go.
fn evaluate<'a, L: Ledger>(
    alloc: Global,
    scene: &Scene<'a>,
    work: &mut Work<'a>,
    path: &'a Path,
    left: u32,
    steps: &mut Steps<L>,
) -> Mem<Outcome>
    requires stack { work.old.stack.items ≡ [] }
    requires fits { Fits work.old.visits.most [] work.old }
    requires most { work.old.visits.most ≤ 10000 }
    ensures answer { IfOk result (IsAnswer work.old.visits.most
        (lookup (rules_at scene.now) (names_at scene.now) left path.now) work.new) }
    ensures counted { IfOk result (λ _. steps.old + min work.new.count 10000 ≤ steps.new) }
    ensures turns { IfOk result (λ _. steps.new ≤ steps.old
        + turns_per_lookup (greatest_depth (rules_at scene.now)) * (work.new.count + 1)) }
{
    let mut task = look_up(alloc, scene, work, HeldPath::Lent(path), left, steps)?;
    loop {
        steps.tick();
        task = match task {
            Task::Try(tree, left) => step(alloc, scene, work, tree, left, steps)?,
            Task::Tell(told) => {
                if told.ends_all() {
                    return Ok(told);
                }
                let Some(frame) = work.stack.pop() else {
                    return Ok(told);
                };
                turn(work, frame, told)?
            }
        };
    }
}

/// One turn: a frame that was taken off the stack gets what was told, which doesn't end all. If
/// something is left of it to try, it goes back on the stack, and the next of it is tried.
fn turn<'a>(work: &mut Work<'a>, frame: Frame<'a>, told: Outcome) -> Mem<Task<'a>>
    requires few { work.old.count ≤ 10000 }
    requires goes_on { ends_all (ending_of told) ≡ false }
    ensures step { (rules : List Rule) → (names : Names)
        → IfOk result (IsStep rules names work.old.visits.most
        (λ visits. frame_on rules names frame.entry (ending_of told, visits))
        (frame_work rules frame.entry) work.old work.new) }
    ensures moves { IfOk result
        (IsTurn frame.entry (ending_of told) work.old.stack.items work.new.stack.items) }
    ensures count { work.new.count ≡ work.old.count }
{
    match frame {
        Frame::FirstOf(choice) => next_tree(work, choice, told),
        Frame::Union(union) => next_branch(work, union, told),
    }
}

/// A turn of a lookup or an alternation: its next tree is tried where negative was told, and what
/// its path names where there is none. Anything else that was told is told on.
fn next_tree<'a>(work: &mut Work<'a>, mut choice: FirstOf<'a>, told: Outcome) -> Mem<Task<'a>>
    requires few { work.old.count ≤ 10000 }
    requires goes_on { ends_all (ending_of told) ≡ false }
    ensures step { (rules : List Rule) → (names : Names)
        → IfOk result (IsStep rules names work.old.visits.most
        (λ visits. choice_on rules names choice.entry (ending_of told, visits))
        (choice_work rules choice.entry) work.old work.new) }
    ensures moves { IfOk result (IsTurn (Frame.FirstOf choice.entry) (ending_of told)
        work.old.stack.items work.new.stack.items) }
    ensures count { work.new.count ≡ work.old.count }
{
    let Outcome::Neg = told else {
        work.visits.end(choice.visit, &told);
        drop(choice);
        return Ok(Task::Tell(told));
    };
    drop(told);
    let Some((tree, from)) = choice.trees.next() else {
        let visit = choice.visit;
        let named = named_outcome(choice.into_named());
        work.visits.end(visit, &named);
        return Ok(Task::Tell(named));
    };
    let Ok(path) = choice.path.share() else {
        drop(choice);
        return Err(AllocError);
    };
    let left = choice.left;
    work.stack.push(Frame::FirstOf(choice))?;
    Ok(Task::Try(Rewritten { tree, path, from }, left))
}

/// A turn of a union: it keeps what was told of the branch that was evaluated, and the next of
/// those whose weight isn't 0 is tried. Where there is none, it tells what its branches come to
/// together.
fn next_branch<'a>(work: &mut Work<'a>, mut union: Union<'a>, told: Outcome) -> Mem<Task<'a>>
    requires few { work.old.count ≤ 10000 }
    requires goes_on { ends_all (ending_of told) ≡ false }
    ensures step { (rules : List Rule) → (names : Names)
        → IfOk result (IsStep rules names work.old.visits.most
        (λ visits. union_on rules names union.entry (ending_of told, visits))
        (union_work rules union.entry) work.old work.new) }
    ensures moves { IfOk result (IsTurn (Frame.Union union.entry) (ending_of told)
        work.old.stack.items work.new.stack.items) }
    ensures count { work.new.count ≡ work.old.count }
{
    let told_of = union.weight;
    union.gathered.add(told_of, told)?;
    let Some((weight, tree)) = next_weighted(&mut union.branches) else {
        return Ok(Task::Tell(union.into_gathered().into_outcome()));
    };
    union.weight = weight;
    let Ok(path) = union.path.share() else {
        drop(union);
        return Err(AllocError);
    };
    let from = union.from;
    let left = union.left;
    work.stack.push(Frame::Union(union))?;
    Ok(Task::Try(Rewritten { tree, path, from }, left))
}

/// One step: a tree is tried, and of an alternation or a union the first tree or branch is tried
/// next. What has to be tried of it later goes on the stack.
fn step<'a, L: Ledger>(
    alloc: Global,
    scene: &Scene<'a>,
    work: &mut Work<'a>,
    tried: Rewritten<'a>,
    left: u32,
    steps: &mut Steps<L>,
) -> Mem<Task<'a>>
    requires { work.old.count ≤ 10000 }
    ensures step { let look = lookup (rules_at scene.now) (names_at scene.now) left in
        IfOk result (IsStep (rules_at scene.now) (names_at scene.now) work.old.visits.most
        (λ visits. behind visits (walk look (tree_of tried.entry)))
        (tree_work (path_work (rules_at scene.now) left) (tree_of tried.entry))
        work.old work.new) }
    ensures counted { IfOk result
        (λ _. steps.old + min work.new.count 10000 ≤ steps.new + work.old.count) }
    ensures paid { (depth start : ℕ) → greatest_depth (rules_at scene.now) ≤ depth
        → IsDue depth start steps.old work.old.stack.items work.old.count
        (Task.Try tried.entry left)
        → IfOk result (IsPaid depth start steps.new work.new.stack.items work.new.count) }
{
    match tried.tree {
        Tree::Neg => {
            drop(tried);
            Ok(Task::Tell(Outcome::Neg))
        }
        Tree::Fail => {
            drop(tried);
            Ok(Task::Tell(Outcome::Fail))
        }
        Tree::Empty => {
            drop(tried);
            Ok(Task::Tell(Outcome::Empty))
        }
        Tree::Leaf(leaf) => {
            let Ok(joined) = tried.path.behind(alloc, leaf, tried.from) else {
                drop(tried);
                return Err(AllocError);
            };
            drop(tried);
            match joined {
                Some(path) => look_up(alloc, scene, work, path, left, steps),
                None => Ok(Task::Tell(Outcome::TooDeep)),
            }
        }
        Tree::Alt(trees) => {
            let choice = FirstOf {
                trees: TreesLeft::Alternatives(Alternatives {
                    trees: trees.items().iter(),
                    from: tried.from,
                }),
                path: tried.path,
                named: None,
                visit: None,
                left,
            };
            next_tree(work, choice, Outcome::Neg)
        }
        Tree::Union(branches) => {
            let union = Union {
                branches: branches.items().iter(),
                path: tried.path,
                from: tried.from,
                weight: 0,
                gathered: Gathered::new(alloc),
                left,
            };
            next_branch(work, union, Outcome::Neg)
        }
    }
}

/// One lookup of a path. The first tree that it is rewritten to is tried next, and what is left to
/// try after it goes on the stack.
fn look_up<'a, L: Ledger>(
    alloc: Global,
    scene: &Scene<'a>,
    work: &mut Work<'a>,
    path: HeldPath<'a>,
    left: u32,
    steps: &mut Steps<L>,
) -> Mem<Task<'a>>
    requires { work.old.count ≤ 10000 }
    ensures step { let look = lookup (rules_at scene.now) (names_at scene.now) left in
        IfOk result (IsStep (rules_at scene.now) (names_at scene.now) work.old.visits.most
        (λ visits. behind visits (look (labels_of path.entry)))
        (path_work (rules_at scene.now) left (labels_of path.entry)) work.old work.new) }
    ensures counted { IfOk result
        (λ _. steps.old + min work.new.count 10000 ≤ steps.new + work.old.count) }
    ensures paid { (depth start : ℕ) → greatest_depth (rules_at scene.now) ≤ depth
        → CanLookUp depth start steps.old work.old.stack.items work.old.count
        → IfOk result (IsPaid depth start steps.new work.new.stack.items work.new.count) }
{
    let looked_up = path.as_path();
    if left == 0 || !looked_up.text_fits(MOST_PATH_BYTES) {
        drop(path);
        return Ok(Task::Tell(Outcome::TooDeep));
    }
    if work.count >= MOST_WIDE {
        work.count = MOST_WIDE + 1;
        work.visits.clear();
        drop(path);
        return Ok(Task::Tell(Outcome::TooWide));
    }
    let depth = MOST_DEEP.saturating_sub(left);
    work.visits.begin(alloc, work.count, depth, looked_up)?;
    let visit = work.count;
    work.count += 1;
    let entries = scene.tables.matching(alloc, looked_up, steps)?;
    let trees = TreesLeft::Entries(entries.into_iter());
    let Ok(named) = name_answer(alloc, scene.book, looked_up) else {
        drop(trees);
        drop(path);
        return Err(AllocError);
    };
    first_tree(work, trees, path, named, visit, left - 1)
}

/// The first of the trees of a lookup, whose leaves have so many lookups left in the chain, is
/// tried next. What the path names by itself is told where there are none. Where nothing is left to
/// try after it and no lookup is kept, no frame is left either.
fn first_tree<'a>(
    work: &mut Work<'a>,
    mut trees: TreesLeft<'a>,
    path: HeldPath<'a>,
    named: Option<Leaf>,
    visit: u32,
    left: u32,
) -> Mem<Task<'a>>
    requires few { work.old.count ≤ 10000 }
    requires begun { visit < work.old.count }
    ensures step { (rules : List Rule) → (names : Names)
        → let ts = trees_left trees.entry (labels_of path.entry) in
        IfOk result (IsStep rules names work.old.visits.most
        (λ visits. lookup_on rules names ts named visit left visits)
        (list_work (path_work rules left) ts) work.old work.new) }
    ensures moves { IfOk result (IsFirst (trees_left trees.entry (labels_of path.entry))
        work.old.stack.items work.new.stack.items) }
    ensures count { work.new.count ≡ work.old.count }
{
    let Some((tree, from)) = trees.next() else {
        drop(trees);
        drop(path);
        let named = named_outcome(named);
        work.visits.end(Some(visit), &named);
        return Ok(Task::Tell(named));
    };
    if trees.is_empty() && named.is_none() && !work.visits.are_kept() {
        drop(trees);
        drop(named);
        return Ok(Task::Try(Rewritten { tree, path, from }, left));
    }
    let Ok(kept) = path.share() else {
        drop(trees);
        drop(path);
        drop(named);
        return Err(AllocError);
    };
    work.stack.push(Frame::FirstOf(FirstOf {
        trees,
        path: kept,
        named,
        visit: Some(visit),
        left,
    }))?;
    Ok(Task::Try(Rewritten { tree, path, from }, left))
}

/// The outcome of a lookup whose trees are all negative.
fn named_outcome(leaf: Option<Leaf>) -> Outcome
    ensures { ending_of result ≡ named_ending leaf }
{
    match leaf {
        None => Outcome::Neg,
        Some(leaf) => Outcome::Bound(Bound::One(leaf)),
    }
}
