//! The words of the command line.
ghost use Rattle.std.specs.Prelude.{◌≡◌, ◌∷◌, None, Some, Ok, Err, ℕ, List, IfOk, IfErr, IsTrue};
ghost use Rattle.std.specs.Prelude.{IsFalse, MatchResult, map, string_bytes};
ghost use Rattle.text_parts.specs.Numbers.{at_most, number_of};
ghost use Rattle.command_lines.specs.Words.{asked_by, command_of, replay, storm, weave, alone};
ghost use Rattle.command_lines.specs.Words.{path_word, path_words, check, serve, lint, Asked};
ghost use Rattle.command_lines.specs.Words.{of_run, most_turns, turns_words, seed_words};
ghost use Rattle.command_lines.specs.Words.{leader_words, polls_words, space_word, space_words};

use addr_book::{Addr, is_name};
use script::read_addr;
use text_parts::read_number;

/// The most turns of a generated run.
const MOST_TURNS: u64 = 1_000_000;

/// What the words ask for.
#[derive(Clone, Copy, PartialEq, Eq)]
pub enum Command<'a> {
    /// `replay`: carry out the script on the input.
    Replay,
    /// `check CONFIG`: tell whether the configuration at this path is right.
    Check(&'a str),
    /// `serve CONFIG`: serve by the configuration at this path, until it is stopped.
    Serve(&'a str),
    /// `lint FILE`: tell which entries of the table at this path are never asked.
    Lint(&'a str),
    /// `storm N SEED`: make a generated run of changes and picks on one state, and sum it up.
    Storm(Generated),
    /// `weave N SEED`: make a generated run of four passes, whose answers come later than their
    /// questions, and sum it up.
    Weave(Generated),
    /// `follow A NS N`: ask the leader at an address for the feed of a namespace, again and again,
    /// and tell each that is later than those before it.
    Follow(Following<'a>),
}

/// What is followed, and how often the leader is asked.
#[derive(Clone, Copy, PartialEq, Eq)]
pub struct Following<'a> {
    /// Where the leader serves its feed.
    pub leader: Addr,
    /// The name of the namespace.
    pub space: &'a str,
    /// How often it is asked, at most 1,000,000 times.
    pub polls: u32,
}

/// What a generated run goes by.
#[derive(Clone, Copy, Debug, PartialEq, Eq)]
pub struct Generated {
    /// How many turns it has, at most 1,000,000.
    pub turns: u32,
    /// The seed of the words that its turns go by.
    pub seed: u64,
}

/// The command that the words spell, or the place of the first that fits none, counted from 1: one
/// more than their number where a word is missing.
pub fn read_words(words: &[String]) -> Result<Command<'_>, usize>
    ensures { MatchResult result
        (λ command. command_of (map string_bytes words.now) ≡ Ok (asked_by command))
        (λ place. command_of (map string_bytes words.now) ≡ Err place) }
{
    match words {
        [word, others @ ..] => read_command(word.as_str(), others),
        [] => Err(1),
    }
}

/// The command of a word and of those behind it.
fn read_command<'a>(word: &str, others: &'a [String]) -> Result<Command<'a>, usize>
    ensures { MatchResult result
        (λ command. command_of (word.now ∷ map string_bytes others.now) ≡ Ok (asked_by command))
        (λ place. command_of (word.now ∷ map string_bytes others.now) ≡ Err place) }
{
    if word == "replay" {
        read_replay(others)
    } else if word == "check" {
        read_check(others)
    } else if word == "serve" {
        read_serve(others)
    } else if word == "lint" {
        read_lint(others)
    } else if word == "storm" {
        read_storm(others)
    } else if word == "weave" {
        read_weave(others)
    } else if word == "follow" {
        read_follow(others)
    } else {
        Err(1)
    }
}

/// `replay` with the words behind it, which are none.
fn read_replay(others: &[String]) -> Result<Command<'_>, usize>
    ensures { MatchResult result
        (λ command. alone 2 replay (map string_bytes others.now) ≡ Ok (asked_by command))
        (λ place. alone 2 replay (map string_bytes others.now) ≡ Err place) }
{
    match others {
        [] => Ok(Command::Replay),
        [_, ..] => Err(2),
    }
}

/// `check` with the words behind it.
fn read_check(others: &[String]) -> Result<Command<'_>, usize>
    ensures { MatchResult result
        (λ command. path_words check (map string_bytes others.now) ≡ Ok (asked_by command))
        (λ place. path_words check (map string_bytes others.now) ≡ Err place) }
{
    Ok(Command::Check(read_path_word(others)?))
}

/// The path behind a command, which is the last word.
fn read_path_word(others: &[String]) -> Result<&str, usize>
    ensures ok { IfOk result (λ path. (command : List ℕ → Asked)
        → path_words command (map string_bytes others.now) ≡ Ok (command path.now)) }
    ensures err { IfErr result (λ place. (command : List ℕ → Asked)
        → path_words command (map string_bytes others.now) ≡ Err place) }
{
    match others {
        [path] if is_path(path.as_str()) => Ok(path.as_str()),
        [path, _, ..] if is_path(path.as_str()) => Err(3),
        _ => Err(2),
    }
}

/// `serve` with the words behind it.
fn read_serve(others: &[String]) -> Result<Command<'_>, usize>
    ensures { MatchResult result
        (λ command. path_words serve (map string_bytes others.now) ≡ Ok (asked_by command))
        (λ place. path_words serve (map string_bytes others.now) ≡ Err place) }
{
    Ok(Command::Serve(read_path_word(others)?))
}

/// `lint` with the words behind it.
fn read_lint(others: &[String]) -> Result<Command<'_>, usize>
    ensures { MatchResult result
        (λ command. path_words lint (map string_bytes others.now) ≡ Ok (asked_by command))
        (λ place. path_words lint (map string_bytes others.now) ≡ Err place) }
{
    Ok(Command::Lint(read_path_word(others)?))
}

/// `storm` with the words behind it.
fn read_storm(others: &[String]) -> Result<Command<'_>, usize>
    ensures { MatchResult result
        (λ command. of_run storm (turns_words (map string_bytes others.now))
        ≡ Ok (asked_by command))
        (λ place. of_run storm (turns_words (map string_bytes others.now)) ≡ Err place) }
{
    Ok(Command::Storm(read_generated(others)?))
}

/// `weave` with the words behind it.
fn read_weave(others: &[String]) -> Result<Command<'_>, usize>
    ensures { MatchResult result
        (λ command. of_run weave (turns_words (map string_bytes others.now))
        ≡ Ok (asked_by command))
        (λ place. of_run weave (turns_words (map string_bytes others.now)) ≡ Err place) }
{
    Ok(Command::Weave(read_generated(others)?))
}

/// The turns and the seed of a generated run, which are the words behind its command.
fn read_generated(others: &[String]) -> Result<Generated, usize>
    ensures { MatchResult result
        (λ run. turns_words (map string_bytes others.now) ≡ Ok (run.turns, run.seed))
        (λ place. turns_words (map string_bytes others.now) ≡ Err place) }
{
    match others {
        [turns, others @ ..] => match read_turns(turns.as_bytes()) {
            Some(turns) => read_seed(turns, others),
            None => Err(2),
        },
        [] => Err(2),
    }
}

/// The turns that a word says.
fn read_turns(word: &[u8]) -> Option<u32>
    ensures { result ≡ at_most most_turns (number_of word.now) }
{
    match read_number(word) {
        Some(turns) if turns <= MOST_TURNS => Some(turns as u32),
        _ => None,
    }
}

/// The seed behind the turns.
fn read_seed(turns: u32, others: &[String]) -> Result<Generated, usize>
    ensures { MatchResult result
        (λ run. seed_words turns (map string_bytes others.now) ≡ Ok (run.turns, run.seed))
        (λ place. seed_words turns (map string_bytes others.now) ≡ Err place) }
{
    match others {
        [seed, others @ ..] => match read_number(seed.as_bytes()) {
            Some(seed) if others.is_empty() => Ok(Generated { turns, seed }),
            Some(_) => Err(4),
            None => Err(3),
        },
        [] => Err(3),
    }
}

/// `follow` with the words behind it.
fn read_follow(others: &[String]) -> Result<Command<'_>, usize>
    ensures { MatchResult result
        (λ command. leader_words (map string_bytes others.now) ≡ Ok (asked_by command))
        (λ place. leader_words (map string_bytes others.now) ≡ Err place) }
{
    match others {
        [leader, others @ ..] => match read_addr(leader.as_bytes()) {
            Some(leader) => read_space(leader, others),
            None => Err(2),
        },
        [] => Err(2),
    }
}

/// The name of the namespace behind the address of its leader.
fn read_space(leader: Addr, others: &[String]) -> Result<Command<'_>, usize>
    ensures { MatchResult result
        (λ command. space_words leader (map string_bytes others.now) ≡ Ok (asked_by command))
        (λ place. space_words leader (map string_bytes others.now) ≡ Err place) }
{
    match others {
        [space, others @ ..] if is_namespace(space.as_str()) => {
            read_polls(leader, space.as_str(), others)
        }
        _ => Err(3),
    }
}

/// The number of polls behind the name of a namespace.
fn read_polls<'a>(leader: Addr, space: &'a str, others: &[String]) -> Result<Command<'a>, usize>
    ensures { MatchResult result
        (λ command. polls_words leader space.now (map string_bytes others.now)
        ≡ Ok (asked_by command))
        (λ place. polls_words leader space.now (map string_bytes others.now) ≡ Err place) }
{
    match others {
        [polls, others @ ..] => match read_turns(polls.as_bytes()) {
            Some(polls) if others.is_empty() => Ok(Command::Follow(Following {
                leader,
                space,
                polls,
            })),
            Some(_) => Err(5),
            None => Err(4),
        },
        [] => Err(4),
    }
}

/// Whether a word can be a path: it is not empty, and does not begin with `-` as an option does.
fn is_path(word: &str) -> bool
    ensures ok { IsTrue result → path_word word.now ≡ Some word.now }
    ensures none { IsFalse result → path_word word.now ≡ None }
{
    !word.is_empty() && !word.starts_with('-')
}

/// Whether a word can be the name of a namespace: it is a name, and does not begin with `-` as an
/// option does.
fn is_namespace(word: &str) -> bool
    ensures ok { IsTrue result → space_word word.now ≡ Some word.now }
    ensures none { IsFalse result → space_word word.now ≡ None }
{
    is_path(word) && is_name(word.as_bytes())
}
