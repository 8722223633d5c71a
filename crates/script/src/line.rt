//! The lines of a script.
ghost use Rattle.std.specs.Prelude.{◌≡◌, MatchResult, IfOk};
ghost use Rattle.script.specs.Line.{line_value, words_value, command_value, create_in, put_in};
ghost use Rattle.script.specs.Line.{delete_in, addrs_in_line, report_in, pick_in, long_pick_in};
ghost use Rattle.script.specs.Line.{numbers_of, bad};
ghost use Rattle.text_parts.specs.Numbers.{number_of};
ghost use Rattle.script.specs.Said.{line_said, IsSoundLine};

use crate::addrs::read_list;
use crate::command::{Command, read_command};
use crate::words::{
    LineFault, cut_word, is_blank_line, only_word, read_addr, read_name, read_path_word,
    read_table, read_version,
};
use dtab_table::Dtab;
use machine::{Ask, Change, Look};
use std::alloc::Global;
use text_parts::{read_number, split_word, without_gap};

/// What a line of a script says.
#[derive(Drop)]
pub enum Line {
    /// Nothing: it has only blanks.
    Blank,
    /// `dtab TABLE`: this is the table of the namespace `default` from now on, whether it is there
    /// or not.
    Table(Dtab),
    /// A change.
    Change(Change),
    /// A question.
    Look(Look),
    /// A pick.
    Ask(Ask),
}

/// Reads a line of a script, without its line feed.
pub fn read_line(alloc: Global, line: &[u8]) -> Result<Line, LineFault>
    ensures line { MatchResult result (λ said. line_value line.now ≡ line_said said)
        (λ fault. fault ≡ LineFault.BadLine → line_value line.now ≡ bad) }
    ensures sound { IfOk result (λ said. IsSoundLine (line_said said)) }
{
    if is_blank_line(line) {
        return Ok(Line::Blank);
    }
    let (word, rest) = split_word(without_gap(line));
    match read_command(word) {
        Some(command) => read_rest(alloc, command, rest),
        None => Err(LineFault::BadLine),
    }
}

/// What a line says, by its command and what follows it.
fn read_rest(alloc: Global, command: Command, rest: &[u8]) -> Result<Line, LineFault>
    ensures line { MatchResult result (λ said. command_value command rest.now ≡ line_said said)
        (λ fault. fault ≡ LineFault.BadLine → command_value command rest.now ≡ bad) }
    ensures sound { IfOk result (λ said. IsSoundLine (line_said said)) }
{
    match command {
        Command::Dtab => Ok(Line::Table(read_table(alloc, without_gap(rest))?)),
        Command::Create => read_create(alloc, rest),
        Command::Put => read_put(alloc, rest),
        Command::Delete => read_delete(alloc, rest),
        Command::Get => Ok(Line::Look(Look::Get {
            name: read_name(alloc, only_word(rest)?)?,
        })),
        Command::List => {
            if without_gap(rest).is_empty() {
                Ok(Line::Look(Look::List))
            } else {
                Err(LineFault::BadLine)
            }
        }
        Command::Addrs => read_set(alloc, rest),
        Command::Drop => Ok(Line::Change(Change::DropService {
            service: read_name(alloc, only_word(rest)?)?,
        })),
        Command::Fail => read_report(false, rest),
        Command::Good => read_report(true, rest),
        Command::Pick => read_pick(alloc, rest),
        Command::View => Ok(Line::Look(Look::View {
            path: read_path_word(alloc, only_word(rest)?)?,
            local: Dtab::empty(alloc),
        })),
    }
}

/// What `create` asks, by the text behind it.
fn read_create(alloc: Global, rest: &[u8]) -> Result<Line, LineFault>
    ensures line { MatchResult result (λ said. create_in rest.now ≡ line_said said)
        (λ fault. fault ≡ LineFault.BadLine → create_in rest.now ≡ bad) }
    ensures sound { IfOk result (λ said. IsSoundLine (line_said said)) }
{
    let (word, text) = cut_word(without_gap(rest));
    let name = read_name(alloc, word)?;
    let dtab = read_table(alloc, text)?;
    Ok(Line::Change(Change::Create { name, dtab }))
}

/// What `put` asks, by the text behind it.
fn read_put(alloc: Global, rest: &[u8]) -> Result<Line, LineFault>
    ensures line { MatchResult result (λ said. put_in rest.now ≡ line_said said)
        (λ fault. fault ≡ LineFault.BadLine → put_in rest.now ≡ bad) }
    ensures sound { IfOk result (λ said. IsSoundLine (line_said said)) }
{
    let (word, more) = cut_word(without_gap(rest));
    let name = read_name(alloc, word)?;
    let (word, text) = cut_word(more);
    let Some(version) = read_version(word) else {
        return Err(LineFault::BadLine);
    };
    let dtab = read_table(alloc, text)?;
    Ok(Line::Change(Change::Put {
        name,
        version,
        dtab,
    }))
}

/// What `delete` asks, by the text behind it.
fn read_delete(alloc: Global, rest: &[u8]) -> Result<Line, LineFault>
    ensures line { MatchResult result (λ said. delete_in rest.now ≡ line_said said)
        (λ fault. fault ≡ LineFault.BadLine → delete_in rest.now ≡ bad) }
    ensures sound { IfOk result (λ said. IsSoundLine (line_said said)) }
{
    let (word, more) = split_word(without_gap(rest));
    let name = read_name(alloc, word)?;
    let Some(version) = read_version(only_word(more)?) else {
        return Err(LineFault::BadLine);
    };
    Ok(Line::Change(Change::Delete { name, version }))
}

/// What `addrs` asks, by the text behind it.
fn read_set(alloc: Global, rest: &[u8]) -> Result<Line, LineFault>
    ensures line { MatchResult result (λ said. addrs_in_line rest.now ≡ line_said said)
        (λ fault. fault ≡ LineFault.BadLine → addrs_in_line rest.now ≡ bad) }
    ensures sound { IfOk result (λ said. IsSoundLine (line_said said)) }
{
    let (word, more) = split_word(without_gap(rest));
    let service = read_name(alloc, word)?;
    let list = read_list(alloc, more)?;
    Ok(Line::Change(Change::SetAddrs { service, list }))
}

/// What `fail` or `good` asks, by the text behind it.
fn read_report(good: bool, rest: &[u8]) -> Result<Line, LineFault>
    ensures line { MatchResult result (λ said. report_in good rest.now ≡ line_said said)
        (λ fault. fault ≡ LineFault.BadLine → report_in good rest.now ≡ bad) }
    ensures sound { IfOk result (λ said. IsSoundLine (line_said said)) }
{
    let (word, more) = split_word(without_gap(rest));
    match (read_addr(word), read_number(only_word(more)?)) {
        (Some(addr), Some(moment)) => Ok(Line::Change(Change::Report { addr, good, moment })),
        _ => Err(LineFault::BadLine),
    }
}

/// What `pick` asks, by the text behind it.
fn read_pick(alloc: Global, rest: &[u8]) -> Result<Line, LineFault>
    ensures line { MatchResult result (λ said. pick_in rest.now ≡ line_said said)
        (λ fault. fault ≡ LineFault.BadLine → pick_in rest.now ≡ bad) }
    ensures sound { IfOk result (λ said. IsSoundLine (line_said said)) }
{
    let text = without_gap(rest);
    let (word, more) = cut_word(text);
    if !more.is_empty() {
        return read_long_pick(alloc, text);
    }
    let path = read_path_word(alloc, word)?;
    Ok(Line::Ask(Ask {
        path,
        local: Dtab::empty(alloc),
        moment: 0,
        words: [0; 3],
    }))
}

/// What the long `pick` asks, by the text from its path on.
fn read_long_pick(alloc: Global, text: &[u8]) -> Result<Line, LineFault>
    ensures line { MatchResult result (λ said. long_pick_in text.now ≡ line_said said)
        (λ fault. fault ≡ LineFault.BadLine → long_pick_in text.now ≡ bad) }
    ensures sound { IfOk result (λ said. IsSoundLine (line_said said)) }
{
    let (path, more) = cut_word(text);
    let (moment, more) = cut_word(more);
    let (branch, more) = cut_word(more);
    let (first, more) = cut_word(more);
    let (second, table) = cut_word(more);
    let path = read_path_word(alloc, path)?;
    let Some(numbers) = read_numbers(moment, branch, first, second) else {
        return Err(LineFault::BadLine);
    };
    let local = read_table(alloc, table)?;
    Ok(Line::Ask(Ask {
        path,
        local,
        moment: numbers.moment,
        words: [numbers.branch, numbers.first, numbers.second],
    }))
}

/// The moment of a pick, and its three words.
#[derive(Clone, Copy)]
pub struct Numbers {
    /// The moment.
    pub moment: u64,
    /// The word that finds the branch of a union.
    pub branch: u64,
    /// The word that draws the first replica of the pair.
    pub first: u64,
    /// The word that draws the second.
    pub second: u64,
}

/// The numbers of a pick, where each word is one.
fn read_numbers(moment: &[u8], branch: &[u8], first: &[u8], second: &[u8]) -> Option<Numbers>
    ensures { result ≡ numbers_of (number_of moment.now) (number_of branch.now)
        (number_of first.now) (number_of second.now) }
{
    match (
        read_number(moment),
        read_number(branch),
        read_number(first),
        read_number(second),
    ) {
        (Some(moment), Some(branch), Some(first), Some(second)) => Some(Numbers {
            moment,
            branch,
            first,
            second,
        }),
        _ => None,
    }
}
