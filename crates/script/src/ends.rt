//! Reading all of a source, up to a limit, and writing all of some bytes.
ghost use Rattle.std.specs.Prelude.{◌≡◌, ◌<◌, ◌≤◌, ◌++◌, List, ℕ, length, MatchResult, IfOk, OnOk};
ghost use Rattle.std.specs.Prelude.{OnErr, Err};
ghost use Rattle.std.specs.Io.KnownBytes.{Appends, Consumes, IsAtEnd};
ghost use Rattle.line_base.specs.Counts.{Rose};
ghost use Rattle.script.specs.Written.{AppendsFront};

use line_base::{Failed, Sink, Source};
use std::alloc::Global;

/// Bytes of one read.
const PIECE: usize = 65_536;

/// Why a source was not read to its end.
#[derive(Clone, Copy)]
pub enum ReadEnd {
    /// A read failed.
    Fault,
    /// There are more bytes than were asked for.
    Long,
    /// There was no memory for the bytes.
    OutOfMemory,
}

/// All the bytes of a source, where there are at most `most`.
pub fn read_all<S: Source>(alloc: Global, source: &mut S, most: usize) -> Result<Vec<u8>, ReadEnd>
    ensures all { IfOk result (λ v. Consumes (S.input source.old).left (S.input source.new).left
        v.items) }
    ensures end { OnOk result (IsAtEnd (S.input source.new).left) }
    ensures ends { OnOk result (Rose (S.input source.old).ends (S.input source.new).ends) }
    ensures within { IfOk result (λ v. length v.items ≤ most) }
    ensures long { result ≡ Err ReadEnd.Long → (taken : List ℕ)
        × Consumes (S.input source.old).left (S.input source.new).left taken
        × (most < length taken) }
    ensures fault { result ≡ Err ReadEnd.Fault → Rose (S.input source.old).faults
        (S.input source.new).faults }
    ensures kept { MatchResult result (λ _. (S.input source.new).faults
        ≡ (S.input source.old).faults) (λ end. (end ≡ ReadEnd.Fault → ⊥)
        → (S.input source.new).faults ≡ (S.input source.old).faults) }
    ensures few { OnErr result ((result ≡ Err ReadEnd.Long → ⊥) → (taken : List ℕ)
        × Consumes (S.input source.old).left (S.input source.new).left taken
        × (length taken ≤ most)) }
{
    let mut all: Vec<u8> = Vec::new(alloc);
    let mut piece = [0u8; PIECE];
    while all.len() <= most {
        let Ok(count) = source.read(&mut piece) else {
            return Err(ReadEnd::Fault);
        };
        if count == 0 {
            return Ok(all);
        }
        if count > most - all.len() {
            return Err(ReadEnd::Long);
        }
        if all.extend_from_slice(&piece[..count]).is_err() {
            return Err(ReadEnd::OutOfMemory);
        }
    }
    unreachable!()
}

/// Writes all the bytes. At `Err` a front of them was written.
pub fn write_all<K: Sink>(sink: &mut K, bytes: &[u8]) -> Result<(), Failed>
    ensures ok { OnOk result (Appends (K.output sink.old).held (K.output sink.new).held bytes.now) }
    ensures err { OnErr result (AppendsFront (K.output sink.old).held (K.output sink.new).held
        bytes.now) }
    ensures cause { OnErr result (Rose (K.output sink.old).faults (K.output sink.new).faults) }
    ensures kept { OnOk result ((K.output sink.new).faults ≡ (K.output sink.old).faults) }
    ensures later { (K.output sink.old).faults ≤ (K.output sink.new).faults }
{
    let mut at = 0;
    while at < bytes.len() {
        match sink.write(&bytes[at..]) {
            Ok(count) => at += count,
            Err(failed) => return Err(failed),
        }
    }
    Ok(())
}
