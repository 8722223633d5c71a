//! Sources, sinks and peers in memory.
ghost use Rattle.std.specs.Prelude.{◌≡◌, ◌≤◌, ◌<◌, ◌+◌, ◌↔◌, ◌⊎◌, [], length, min, true, false};
ghost use Rattle.std.specs.Prelude.{Ok, None, Some, IsErr, IfOk, OnErr};
ghost use Rattle.std.specs.Io.{ReadsAtMost, WritesAtMost};
ghost use Rattle.std.specs.Io.KnownBytes.{ReadConsumes, WriteAppends};
ghost use Rattle.line_base.specs.Counts.{HasCause, CountsEnds, MovesNothing};
ghost use Rattle.line_base.specs.Lines.{WaitsForNext, told_closing};
ghost use Rattle.line_doubles.specs.Memory.{FailsNext, IsQuiet, awaited, behind_call, input_of};
ghost use Rattle.line_doubles.specs.Memory.{is_due, line_of, no_notice, output_of, piece_of};
ghost use Rattle.line_doubles.specs.Memory.{questioned};

use crate::notice::Notice;
use crate::plan::CallPlan;
use crate::unread::Unread;
use line_base::{Failed, Next, Peer, Sink, SocketAddress, Source};
use std::alloc::Global;
use std::marker::Model;

/// Bytes in memory, given in pieces of stated sizes. Calls are counted from 0; a read into no room
/// is no call.
pub struct MemSource {
    unread: Unread,
    plan: CallPlan,
    faults: u64,
    ends: u64,
}

impl Drop for MemSource {
    fn drop(self) {
        let MemSource {
            unread,
            plan,
            faults: _,
            ends: _,
        } = self;
        drop(unread);
        drop(plan);
    }
}

impl Model for MemSource {
    ghost use Rattle.line_doubles.specs.Memory.{Giving};

    ghost Value = { Giving };

    ghost view = { λ s. record {
      left = s.unread;
      plan = s.plan;
      faults = s.faults;
      ends = s.ends;
    } };
}

impl MemSource {
    /// A source of these bytes. Call number `n` gives at most `sizes[n]` bytes, at least one where
    /// one is left, and as many as there is room for past the last size. The calls whose numbers
    /// are in `failing` fail.
    pub fn of(bytes: Vec<u8>, sizes: Vec<usize>, failing: Vec<u64>) -> MemSource
        ensures left { result.left ≡ bytes.items }
        ensures plan { result.plan
            ≡ record { sizes = sizes.items; failing = failing.items; calls = 0 } }
        ensures counts { (result.faults ≡ 0) × (result.ends ≡ 0) }
    {
        MemSource {
            unread: Unread::of(bytes),
            plan: CallPlan::of(sizes, failing),
            faults: 0,
            ends: 0,
        }
    }

    /// The bytes that are left to give.
    pub fn left(&self) -> &[u8]
        ensures { result.now ≡ self.now.left }
    {
        self.unread.left()
    }

    /// How many reads failed.
    pub fn faults(&self) -> u64
        ensures { result ≡ self.now.faults }
    {
        self.faults
    }

    /// How many reads gave the end.
    pub fn ends(&self) -> u64
        ensures { result ≡ self.now.ends }
    {
        self.ends
    }
}

impl Source for MemSource {
    ghost input = { input_of };

    /// Fails exactly at the calls that are listed.
    fn read(&mut self, into: &mut [u8]) -> Result<usize, Failed>
        ensures bound { ReadsAtMost result into.new }
        ensures bytes { ReadConsumes (Some self.old.left) (Some self.new.left) result into.new }
        ensures cause { HasCause self.old.faults self.new.faults result }
        ensures end { CountsEnds self.old.ends self.new.ends result (length into.new) }
        ensures nothing { MovesNothing self.old.faults self.new.faults result (length into.new) }
        ensures plan { self.new.plan ≡ behind_call (length into.new) self.old.plan }
        ensures fails { 0 < length into.new → IsErr result ↔ FailsNext self.old.plan }
        ensures size { IfOk result
            (λ n. n ≡ min (min (length into.new) (piece_of self.old.plan)) (length self.old.left)) }
    {
        if into.is_empty() {
            return Ok(0);
        }
        let Ok(size) = self.plan.call() else {
            self.faults = self.faults.saturating_add(1);
            return Err(Failed);
        };
        let count = self.unread.give(into, size);
        if count == 0 {
            self.ends = self.ends.saturating_add(1);
        }
        Ok(count)
    }
}

/// A list in memory that takes bytes in pieces of stated sizes. Calls are counted from 0; a write
/// of nothing is no call.
pub struct MemSink {
    held: Vec<u8>,
    plan: CallPlan,
    faults: u64,
}

impl Drop for MemSink {
    fn drop(self) {
        let MemSink {
            held,
            plan,
            faults: _,
        } = self;
        drop(held);
        drop(plan);
    }
}

impl Model for MemSink {
    ghost use Rattle.std.specs.Prelude.{vec_capacity};
    ghost use Rattle.line_doubles.specs.Memory.{Taking};

    ghost Value = { Taking };

    ghost view = { λ s. record {
      held = s.held.items;
      room = vec_capacity s.held;
      plan = s.plan;
      faults = s.faults;
    } };
}

impl MemSink {
    /// A sink that holds nothing. Call number `n` takes at most `sizes[n]` bytes, at least one, and
    /// all past the last size. The calls whose numbers are in `failing` fail.
    pub fn of(alloc: Global, sizes: Vec<usize>, failing: Vec<u64>) -> MemSink
        ensures held { result.held ≡ [] }
        ensures plan { result.plan
            ≡ record { sizes = sizes.items; failing = failing.items; calls = 0 } }
        ensures faults { result.faults ≡ 0 }
    {
        MemSink {
            held: Vec::new(alloc),
            plan: CallPlan::of(sizes, failing),
            faults: 0,
        }
    }

    /// The bytes that were taken.
    pub fn held(&self) -> &[u8]
        ensures { result.now ≡ self.now.held }
    {
        self.held.as_slice()
    }

    /// How many writes failed.
    pub fn faults(&self) -> u64
        ensures { result ≡ self.now.faults }
    {
        self.faults
    }
}

impl Sink for MemSink {
    ghost output = { output_of };

    /// Fails at the calls that are listed, and else only where there is no memory for what it
    /// holds.
    fn write(&mut self, bytes: &[u8]) -> Result<usize, Failed>
        ensures bound { WritesAtMost result bytes.now }
        ensures moves { IfOk result (λ n. 0 < length bytes.now → 0 < n) }
        ensures bytes { WriteAppends (Some self.old.held) (Some self.new.held) result bytes.now }
        ensures cause { HasCause self.old.faults self.new.faults result }
        ensures nothing { MovesNothing self.old.faults self.new.faults result (length bytes.now) }
        ensures plan { self.new.plan ≡ behind_call (length bytes.now) self.old.plan }
        ensures fails { 0 < length bytes.now → FailsNext self.old.plan → IsErr result }
        ensures only { OnErr result (FailsNext self.old.plan
            ⊎ (self.old.room < length self.old.held + length bytes.now)) }
        ensures size { IfOk result (λ n. n ≡ min (length bytes.now) (piece_of self.old.plan)) }
    {
        if bytes.is_empty() {
            return Ok(0);
        }
        let Ok(size) = self.plan.call() else {
            self.faults = self.faults.saturating_add(1);
            return Err(Failed);
        };
        let count = bytes.len().min(size);
        if self.held.extend_from_slice(&bytes[..count]).is_err() {
            self.faults = self.faults.saturating_add(1);
            return Err(Failed);
        }
        Ok(count)
    }
}

/// A connection in memory: a source that it gives from and a sink that it takes into. Each has
/// calls of its own. It may be told from which question on it says that its listeners are closing,
/// and at which questions it says that nothing came: calls of `read_next` and `is_closing` are its
/// questions, and are counted together from 0. It tells where its other end is only where it was
/// told that.
pub struct MemPeer {
    source: MemSource,
    sink: MemSink,
    notice: Notice,
    address: Option<SocketAddress>,
}

impl Drop for MemPeer {
    fn drop(self) {
        let MemPeer {
            source,
            sink,
            notice,
            address: _,
        } = self;
        drop(source);
        drop(sink);
        drop(notice);
    }
}

impl Model for MemPeer {
    ghost use Rattle.line_doubles.specs.Memory.{Meeting};

    ghost Value = { Meeting };

    ghost view = { λ p. record {
      source = p.source;
      sink = p.sink;
      notice = p.notice;
      address = p.address;
    } };
}

impl MemPeer {
    /// A peer that gives from the one and takes into the other. Its listeners stay open, and it
    /// does not tell where its other end is.
    pub fn of(source: MemSource, sink: MemSink) -> MemPeer
        ensures { result ≡ record {
          source = source;
          sink = sink;
          notice = no_notice;
          address = None;
        } }
    {
        MemPeer {
            notice: Notice::of(None, Vec::new(*sink.held.allocator())),
            source,
            sink,
            address: None,
        }
    }

    /// A peer whose listeners are closing from the question of this number on.
    pub fn closing(source: MemSource, sink: MemSink, question: u64) -> MemPeer
        ensures { result ≡ record {
          source = source;
          sink = sink;
          notice = record { from = Some question; quiet = []; asked = 0; told = 0; quiets = 0 };
          address = None;
        } }
    {
        MemPeer {
            notice: Notice::of(Some(question), Vec::new(*sink.held.allocator())),
            source,
            sink,
            address: None,
        }
    }

    /// The peer, of which nothing comes at these questions, where its listeners are open.
    pub fn quiet(self, questions: Vec<u64>) -> MemPeer
        ensures { result ≡ record {
          source = self.source;
          sink = self.sink;
          notice = record {
            from = self.notice.from;
            quiet = questions.items;
            asked = 0;
            told = 0;
            quiets = 0;
          };
          address = self.address;
        } }
    {
        let MemPeer {
            source,
            sink,
            notice,
            address,
        } = self;
        let from = notice.closing_from();
        drop(notice);
        MemPeer {
            source,
            sink,
            notice: Notice::of(from, questions),
            address,
        }
    }

    /// The peer, whose other end is at this address.
    pub fn at(self, address: SocketAddress) -> MemPeer
        ensures { result ≡ record {
          source = self.source;
          sink = self.sink;
          notice = self.notice;
          address = Some address;
        } }
    {
        let MemPeer {
            source,
            sink,
            notice,
            address: _,
        } = self;
        MemPeer {
            source,
            sink,
            notice,
            address: Some(address),
        }
    }

    /// What it gives from.
    pub fn source(&self) -> &MemSource
        ensures { result.now ≡ self.now.source }
    {
        &self.source
    }

    /// What it takes into.
    pub fn sink(&self) -> &MemSink
        ensures { result.now ≡ self.now.sink }
    {
        &self.sink
    }

    /// How often it said that its listeners are closing.
    pub fn closings(&self) -> u64
        ensures { result ≡ self.now.notice.told }
    {
        self.notice.told()
    }

    /// How often it said that nothing came.
    pub fn quiets(&self) -> u64
        ensures { result ≡ self.now.notice.quiets }
    {
        self.notice.quiets()
    }
}

impl Peer for MemPeer {
    ghost line = { line_of };

    ghost address = { λ p. p.address };

    fn address(&self) -> Option<SocketAddress>
        ensures { result ≡ self.now.address }
    {
        self.address
    }

    /// A read of its source.
    fn read(&mut self, into: &mut [u8]) -> Result<usize, Failed>
        ensures bound { ReadsAtMost result into.new }
        ensures bytes { ReadConsumes (Some self.old.source.left) (Some self.new.source.left) result
            into.new }
        ensures others { (self.new.sink ≡ self.old.sink) × (self.new.notice ≡ self.old.notice) }
        ensures cause { HasCause self.old.source.faults self.new.source.faults result }
        ensures end { CountsEnds self.old.source.ends self.new.source.ends result
            (length into.new) }
        ensures nothing { MovesNothing self.old.source.faults self.new.source.faults result
            (length into.new) }
        ensures plan { self.new.source.plan ≡ behind_call (length into.new) self.old.source.plan }
        ensures fails { 0 < length into.new → IsErr result ↔ FailsNext self.old.source.plan }
    {
        self.source.read(into)
    }

    /// A question, and a read of its source where its listeners are open and something comes.
    fn read_next(&mut self, into: &mut [u8]) -> Result<Next, Failed>
        ensures next { WaitsForNext (line_of self.old) (line_of self.new) into.new result }
        ensures due { is_due self.old.notice ≡ true → result ≡ Ok Next.Closing }
        ensures only { result ≡ Ok Next.Closing → is_due self.old.notice ≡ true }
        ensures quiet { is_due self.old.notice ≡ false → IsQuiet self.old.notice
            → result ≡ Ok Next.Quiet }
        ensures only_quiet { result ≡ Ok Next.Quiet → IsQuiet self.old.notice }
        ensures asked { self.new.notice ≡ awaited result self.old.notice }
    {
        let is_quiet = self.notice.is_quiet();
        if self.notice.ask() {
            return Ok(Next::Closing);
        }
        if is_quiet {
            self.notice.count_quiet();
            return Ok(Next::Quiet);
        }
        match self.source.read(into) {
            Ok(0) => Ok(Next::End),
            Ok(count) => Ok(Next::Bytes(count)),
            Err(failed) => Err(failed),
        }
    }

    /// A question.
    fn is_closing(&mut self) -> bool
        ensures told { line_of self.new ≡ told_closing result (line_of self.old) }
        ensures due { result ≡ is_due self.old.notice }
        ensures asked { self.new.notice ≡ questioned self.old.notice }
        ensures others { (self.new.source ≡ self.old.source) × (self.new.sink ≡ self.old.sink) }
    {
        self.notice.ask()
    }

    /// A write to its sink.
    fn write(&mut self, bytes: &[u8]) -> Result<usize, Failed>
        ensures bound { WritesAtMost result bytes.now }
        ensures moves { IfOk result (λ n. 0 < length bytes.now → 0 < n) }
        ensures bytes { WriteAppends (Some self.old.sink.held) (Some self.new.sink.held) result
            bytes.now }
        ensures others { (self.new.source ≡ self.old.source) × (self.new.notice ≡ self.old.notice) }
        ensures cause { HasCause self.old.sink.faults self.new.sink.faults result }
        ensures nothing { MovesNothing self.old.sink.faults self.new.sink.faults result
            (length bytes.now) }
        ensures plan { self.new.sink.plan ≡ behind_call (length bytes.now) self.old.sink.plan }
        ensures fails { 0 < length bytes.now → FailsNext self.old.sink.plan → IsErr result }
        ensures only { OnErr result (FailsNext self.old.sink.plan
            ⊎ (self.old.sink.room < length self.old.sink.held + length bytes.now)) }
    {
        self.sink.write(bytes)
    }
}
