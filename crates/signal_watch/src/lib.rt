//! A signal that asks the program to stop, seen without a handler.
//!
//! A process that is started with signals blocked, as by `env --block-signal=TERM,INT`, is not
//! ended by them: they wait for it, and its status file (`/proc/self/status`, proc_pid_status(5))
//! says so in the line `ShdPnd`. [`watch`] looks there, again and again with a [`Pause`] in
//! between, and calls a [`Stop`](line_base::Stop) once one of them waits. So a container's stop
//! ends the connections at their next border, as the administrator's request to stop does. Where
//! none of them is blocked, which [`is_watchable`] tells from the line `SigBlk`, there is nothing
//! to watch for: a signal ends the program as it ends any other.
//!
//! A stop belongs to the job of a listener, and comes back with it. The watch has no listener: it
//! calls a [`RemoteStop`], which finds the stop that a [`StoppableNet`] leaves in a [`StopCell`].
//! A [`Watch`] runs in a thread beside what serves, and ends with it, by a pause that waits for a
//! [`Finish`].
//!
//! # What is proved
//! [`asks_to_stop`] and [`holds_stop`] say exactly by `specs/Status.antt` whether a signal that
//! asks for an end waits, and whether it would: the bits of SIGTERM and SIGINT in the numbers of
//! the lines `ShdPnd` and `SigBlk`. Where the folder tells its files, [`is_watchable`] answers by
//! the status file, [`Watch::wanted`] gives a watch exactly by that answer, and [`watch`] says that
//! it was asked only where that file asks for an end; a look that finds no signal is one at a file
//! that asks for none. The stop is called exactly where the answer says that it was asked. A
//! [`StoppableNet`] is the net below it in all that a net tells, but for the stops in its cell.
//! What stands in the cell is shared, and no clause speaks of it: that a remote stop closes the
//! listeners is tested over sockets, in `edge_tests`. The other tests are `signal_tests`.
//!
//! # Example
//! ```
//! let cell = StopCell::new(alloc)?;
//! let finish = Finish::awaited(alloc)?;
//! let Some(watch) = Watch::wanted(&mut folder, &cell, &finish)? else {
//!     return serve(&mut net);  // no signal is blocked: one ends the program as any other
//! };
//! let mut net = StoppableNet::of(&rt, net, cell);
//! let watching = thread::spawn(&rt, move || watch.run(&rt, &mut folder))?;
//! serve(&mut net);
//! finish.come();
//! match watching.join(&rt)? {
//!     Watched::Asked => {}  // a signal waited, and the stop was called
//!     Watched::Over => {}   // nothing is left to stop: it ended for another reason
//!     Watched::Blind => {}  // there is no status file to look at
//! }
//! ```
#![tactic(auto)]

mod beside;
mod finish;
mod pause;
mod remote_stop;
mod status;
mod stop_cell;
mod stoppable_net;
mod watching;

pub use beside::Watch;
pub use finish::{Finish, FinishPause};
pub use pause::Pause;
pub use remote_stop::RemoteStop;
pub use status::{asks_to_stop, holds_stop};
pub use stop_cell::StopCell;
pub use stoppable_net::StoppableNet;
pub use watching::{Watched, is_watchable, watch};
