//! Reading the configuration at a path; and `check`, the line that tells whether it is right.
ghost use Rattle.std.specs.Prelude.{◌≡◌, ◌≤◌, ℕ, List, false, Ok, Err, IfOk, IfErr, MatchResult};
ghost use Rattle.line_base.specs.Counts.{Rose};
ghost use Rattle.command_lines.specs.Check.{IsConfig, IsText, TellsFound, TellsPath};
ghost use Rattle.command_lines.specs.Found.{IfWrong};
ghost use Rattle.linker_config.specs.Answers.{Reads};

use crate::{Bytes, Mem};
use line_base::{Folder, FolderFault, Found};
use linker_config::{Config, check_line, fault_line, read_config};
use std::alloc::Global;

/// The most bytes of a configuration.
const MOST_CONFIG: usize = 1_048_576;

/// Why there is no configuration.
#[derive(Drop)]
pub enum ConfigEnd {
    /// It has a fault, or there is none: this line tells so, with its line feed.
    Wrong(Bytes),
    /// The folder could not be read.
    Fault,
    /// There was no memory.
    OutOfMemory,
}

/// What is told of a configuration or a table.
pub struct Verdict {
    /// Whether it is right.
    pub is_right: bool,
    /// What is told of it, or of its first fault, in whole lines.
    pub line: Bytes,
}

impl Drop for Verdict {
    fn drop(self) {
        let Verdict { is_right: _, line } = self;
        drop(line);
    }
}

/// Why nothing is told of a configuration or a table.
#[derive(Clone, Copy)]
pub enum CheckEnd {
    /// The folder could not be read.
    Fault,
    /// There was no memory.
    OutOfMemory,
}

/// Reads the configuration at a path. The services' folder that it names is not looked at.
pub fn configured<F: Folder>(alloc: Global, folder: &mut F, path: &str) -> Result<Config, ConfigEnd>
    ensures config { IfOk result (λ config. IsConfig (F.filed folder.old).files path.now config) }
    ensures workers { IfOk result (λ config. (1 ≤ config.workers) × (config.workers ≤ 256)) }
    ensures wrong { IfErr result (λ end. IfWrong end
        (λ line. TellsPath (F.filed folder.old).files path.now false line)) }
    ensures fault { result ≡ Err ConfigEnd.Fault → Rose (F.filed folder.old).faults
        (F.filed folder.new).faults }
    ensures kept { (result ≡ Err ConfigEnd.Fault → ⊥) → (F.filed folder.new).faults
        ≡ (F.filed folder.old).faults }
    ensures files { (F.filed folder.new).files ≡ (F.filed folder.old).files }
{
    match folder.read(path, MOST_CONFIG) {
        Ok(found) => config_in(alloc, &found),
        Err(FolderFault::Failed) => Err(ConfigEnd::Fault),
        Err(FolderFault::OutOfMemory) => Err(ConfigEnd::OutOfMemory),
    }
}

/// The configuration that was found at a path.
fn config_in(alloc: Global, found: &Found) -> Result<Config, ConfigEnd>
    ensures config { IfOk result (λ config. (text : List ℕ) × IsText found.now text
        × Reads text (Ok config)) }
    ensures workers { IfOk result (λ config. (1 ≤ config.workers) × (config.workers ≤ 256)) }
    ensures wrong { IfErr result (λ end. IfWrong end (λ line. TellsFound found.now false line)) }
    ensures only { result ≡ Err ConfigEnd.Fault → ⊥ }
{
    match found {
        Found::Absent => Err(wrong(Vec::from_slice(alloc, b"error config absent\n"))),
        Found::Longer => Err(wrong(Vec::from_slice(alloc, b"error config long\n"))),
        Found::Bytes(text) => match read_config(alloc, text.as_slice()) {
            Ok(config) => Ok(config),
            Err(fault) => Err(wrong(fault_line(alloc, &fault))),
        },
    }
}

/// There is no configuration, and this line tells why, unless there was no memory for it.
fn wrong(line: Mem<Bytes>) -> ConfigEnd
    ensures line { IfWrong result (λ told. MatchResult line (λ l. told ≡ l.items) (λ _. ⊥)) }
    ensures only { result ≡ ConfigEnd.Fault → ⊥ }
{
    match line {
        Ok(line) => ConfigEnd::Wrong(line),
        Err(_) => ConfigEnd::OutOfMemory,
    }
}

/// Reads the configuration at a path, and tells of it.
pub fn check<F: Folder>(alloc: Global, folder: &mut F, path: &str) -> Result<Verdict, CheckEnd>
    ensures told { IfOk result (λ v. TellsPath (F.filed folder.old).files path.now v.is_right
        v.line.items) }
    ensures fault { result ≡ Err CheckEnd.Fault → Rose (F.filed folder.old).faults
        (F.filed folder.new).faults }
    ensures kept { (result ≡ Err CheckEnd.Fault → ⊥) → (F.filed folder.new).faults
        ≡ (F.filed folder.old).faults }
    ensures files { (F.filed folder.new).files ≡ (F.filed folder.old).files }
{
    match configured(alloc, folder, path) {
        Ok(config) => {
            let told = check_line(alloc, &config);
            drop(config);
            match told {
                Ok(line) => Ok(Verdict {
                    is_right: true,
                    line,
                }),
                Err(_) => Err(CheckEnd::OutOfMemory),
            }
        }
        Err(ConfigEnd::Wrong(line)) => Ok(Verdict {
            is_right: false,
            line,
        }),
        Err(ConfigEnd::Fault) => Err(CheckEnd::Fault),
        Err(ConfigEnd::OutOfMemory) => Err(CheckEnd::OutOfMemory),
    }
}
