//! Jobs that run beside one another.
ghost use Rattle.std.specs.Prelude.{◌≡◌, ◌≤◌, [], length, MatchResult, IfErr, vec_capacity};
ghost use Rattle.std.specs.List.{AllZip};
ghost use Rattle.workers.specs.Runs.{ComesBack};

use core::thread::Stack;
use line_base::Gate;
use std::snapshot::Snapshot;
use std::sync::Wait;
use std::thread;
use std::thread::{Promise, PromisedHandle, Scope, Threads};

/// How many bytes of stack the thread of a job has, whatever the system's default is.
pub const STACK_BYTES: usize = 8 * 1024 * 1024;

/// What one thread is to do.
pub trait Job: Drop {
    /// What a run of it ends with.
    type End: Drop;

    /// What one run does: the job before it, the job behind it, and the end that it gives.
    ghost runs: { Self → Self → Self.End → Type 0 };

    /// Does it.
    fn run<R: Wait, G: Gate>(&mut self, rt: &R, gate: &G) -> Self::End
        ensures { runs self.old self.new result };
}

/// There was no memory to run these jobs. None of them has run.
#[derive(Drop)]
pub struct JobsBack<J> {
    /// The jobs, as they were given.
    pub jobs: Vec<J>,
}

/// What a thread gives back: the job that it was given, as one run leaves it, and the end of that.
#[derive(Drop)]
struct RunOf<J: Job> {
    before: Snapshot<J>,
}

impl<J: Job> Promise<(J, J::End)> for RunOf<J> {
    ghost kept_by = { λ run back. J.runs run.before.value back.0 back.1 };
}

/// A job that was begun: its thread, or the job and its end where none could be made.
type Begun<J> = Result<PromisedHandle<(J, <J as Job>::End), RunOf<J>>, (J, <J as Job>::End)>;

/// Runs a job, and gives it back with the end of its run.
fn run_here<R: Wait, J: Job, G: Gate>(rt: &R, mut job: J, gate: &G) -> (J, J::End)
    ensures { ComesBack J.runs job result }
{
    let end = job.run(rt, gate);
    (job, end)
}

/// Begins a job in a thread of its own. Where none can be made, it runs it to its end.
fn begin<'s, E, R: Wait + Sync, J: Job + Send + 's, G: Gate + Sync>(
    scope: &Scope<'s, E>,
    rt: &'s R,
    job: J,
    gate: &'s G,
) -> Begun<J>
where
    J::End: Send + 's,
    ensures { MatchResult result (λ thread. thread.promise.before.value ≡ job)
        (ComesBack J.runs job) }
{
    let promise = RunOf {
        before: Snapshot::of(&job),
    };
    let run = move || -> (J, J::End)
        ensures { ComesBack J.runs job result }
    { run_here(rt, job, gate) };
    let stack = Stack::new().stack_size(STACK_BYTES);
    match stack.spawn_scoped_with(scope, promise, run) {
        Ok(thread) => Ok(thread),
        Err(refused) => Err((refused.value)()),
    }
}

/// Waits for the end of a job that was begun.
fn finish<R: Threads, J: Job>(rt: &R, begun: Begun<J>) -> (J, J::End)
    ensures { (job : _) → MatchResult begun (λ thread. thread.promise.before.value ≡ job)
        (ComesBack J.runs job) → ComesBack J.runs job result }
{
    match begun {
        Ok(thread) => thread.join(rt),
        Err(back) => back,
    }
}

/// Begins all jobs, and waits for their ends.
fn run_all<'s, E, R: Threads + Wait + Sync, J: Job + Send + 's, G: Gate + Sync>(
    scope: &Scope<'s, E>,
    rt: &'s R,
    jobs: Vec<J>,
    gate: &'s G,
    mut begun: Vec<Begun<J>>,
    mut back: Vec<(J, J::End)>,
) -> Vec<(J, J::End)>
where
    J::End: Send + 's,
    requires empty { (begun.items ≡ []) × (back.items ≡ []) }
    requires room { (length jobs.items ≤ vec_capacity begun)
        × (length jobs.items ≤ vec_capacity back) }
    ensures { AllZip (ComesBack J.runs) jobs.items result.items }
{
    for job in jobs {
        begun.push_reserved(begin(scope, rt, job, gate));
    }
    for one in begun {
        back.push_reserved(finish(rt, one));
    }
    back
}

/// Runs these jobs beside one another, and hands each back with its end, in their order.
///
/// Each has a thread of its own, with a stack of [`STACK_BYTES`]. One for which none can be made
/// runs in the caller's, before those behind it are begun.
pub fn run_workers<R: Threads + Wait + Sync, J: Job + Send, G: Gate + Sync>(
    rt: &R,
    jobs: Vec<J>,
    gate: &G,
) -> Result<Vec<(J, J::End)>, JobsBack<J>>
where
    J::End: Send,
    ensures { MatchResult result (λ back. AllZip (ComesBack J.runs) jobs.items back.items)
        (λ back. back.jobs ≡ jobs) }
{
    let alloc = *jobs.allocator();
    let Ok(begun) = Vec::with_capacity(alloc, jobs.len()) else {
        return Err(JobsBack { jobs });
    };
    let Ok(back) = Vec::with_capacity(alloc, jobs.len()) else {
        return Err(JobsBack { jobs });
    };
    Ok(thread::scope(
        thread::scope_env(),
        rt,
        move |scope| -> Vec<(J, J::End)>
            requires { (begun.items ≡ []) × (back.items ≡ [])
                × (length jobs.items ≤ vec_capacity begun)
                × (length jobs.items ≤ vec_capacity back) }
            ensures { AllZip (ComesBack J.runs) jobs.items result.items }
        { run_all(scope, rt, jobs, gate, begun, back) },
    ))
}
