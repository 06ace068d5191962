//! The plain lines but those of a desk, by the words behind the command.
ghost use Rattle.std.specs.Prelude.{◌∷◌, [], codes};
ghost use Rattle.bp_cli.specs.Words.{texts};
ghost use Rattle.bp_cli.specs.Asked.{IsReadOf};

use crate::name::is_file_name;
use crate::number::{WORKERS, number_of, number_within};
use crate::{Name, Task};
use bp_types::limits::{MOST_GROUP_ROOMS, MOST_NIGHTS, MOST_ROOMS, MOST_STAYS, MOST_WORKERS};

/// A check, where files may have these names.
fn check_of<'a>(problem: &'a str, certificate: &'a str) -> Option<Task<'a>>
    ensures { IsReadOf (codes "check" ∷ problem.now ∷ certificate.now ∷ []) result }
{
    if !is_file_name(problem) || !is_file_name(certificate) {
        return None;
    }
    Some(Task::Check {
        problem: Name::new(problem),
        certificate: Name::new(certificate),
    })
}

/// The words behind `check`: a problem and a certificate.
pub(crate) fn check_line(words: &[String]) -> Option<Task<'_>>
    ensures { IsReadOf (codes "check" ∷ texts words.now) result }
{
    match words {
        [problem, certificate] => check_of(problem.as_str(), certificate.as_str()),
        _ => None,
    }
}

/// A solution, where a file may have this name.
fn solve_of<'a>(problem: &'a str) -> Option<Task<'a>>
    ensures { IsReadOf (codes "solve" ∷ problem.now ∷ []) result }
{
    if !is_file_name(problem) {
        return None;
    }
    Some(Task::Solve {
        problem: Name::new(problem),
    })
}

/// The words behind `solve`: a problem.
pub(crate) fn solve_line(words: &[String]) -> Option<Task<'_>>
    ensures { IsReadOf (codes "solve" ∷ texts words.now) result }
{
    match words {
        [problem] => solve_of(problem.as_str()),
        _ => None,
    }
}

/// A group of 1 to `MOST_GROUP_ROOMS` rooms, where a file may have this name. Whether the nights are the problem's is
/// not asked here.
fn group_of<'a>(problem: &'a str, from: &str, to: &str, rooms: &str) -> Option<Task<'a>>
    ensures { IsReadOf (codes "group" ∷ problem.now ∷ from.now ∷ to.now ∷ rooms.now ∷ []) result }
{
    if !is_file_name(problem) {
        return None;
    }
    let from = number_of(from)?;
    let to = number_of(to)?;
    let rooms = u64::from(number_within(1, MOST_GROUP_ROOMS as u32, rooms)?);
    let problem = Name::new(problem);
    Some(Task::Group {
        problem,
        from,
        to,
        rooms,
    })
}

/// The words behind `group`: a problem, the night of arrival and that of departure, and a number of rooms.
pub(crate) fn group_line(words: &[String]) -> Option<Task<'_>>
    ensures { IsReadOf (codes "group" ∷ texts words.now) result }
{
    match words {
        [problem, from, to, rooms] => {
            group_of(problem.as_str(), from.as_str(), to.as_str(), rooms.as_str())
        }
        _ => None,
    }
}

/// A judgement, where files may have these names.
fn judge_of<'a>(problem: &'a str, journal: &'a str) -> Option<Task<'a>>
    ensures { IsReadOf (codes "judge" ∷ problem.now ∷ journal.now ∷ []) result }
{
    if !is_file_name(problem) || !is_file_name(journal) {
        return None;
    }
    Some(Task::Judge {
        problem: Name::new(problem),
        journal: Name::new(journal),
    })
}

/// The words behind `judge`: a problem and a journal.
pub(crate) fn judge_line(words: &[String]) -> Option<Task<'_>>
    ensures { IsReadOf (codes "judge" ∷ texts words.now) result }
{
    match words {
        [problem, journal] => judge_of(problem.as_str(), journal.as_str()),
        _ => None,
    }
}

/// Scenarios, where files may have these names.
fn scenarios_of<'a>(problem: &'a str, changes: &'a str) -> Option<Task<'a>>
    ensures { IsReadOf (codes "scenarios" ∷ problem.now ∷ changes.now ∷ []) result }
{
    if !is_file_name(problem) || !is_file_name(changes) {
        return None;
    }
    Some(Task::Scenarios {
        problem: Name::new(problem),
        changes: Name::new(changes),
    })
}

/// The words behind `scenarios`: a problem and a file of changes.
pub(crate) fn scenarios_line(words: &[String]) -> Option<Task<'_>>
    ensures { IsReadOf (codes "scenarios" ∷ texts words.now) result }
{
    match words {
        [problem, changes] => scenarios_of(problem.as_str(), changes.as_str()),
        _ => None,
    }
}

/// A sheet, where a file may have this name.
fn sheet_of<'a>(problem: &'a str) -> Option<Task<'a>>
    ensures { IsReadOf (codes "sheet" ∷ problem.now ∷ []) result }
{
    if !is_file_name(problem) {
        return None;
    }
    Some(Task::Sheet {
        problem: Name::new(problem),
    })
}

/// The words behind `sheet`: a problem.
pub(crate) fn sheet_line(words: &[String]) -> Option<Task<'_>>
    ensures { IsReadOf (codes "sheet" ∷ texts words.now) result }
{
    match words {
        [problem] => sheet_of(problem.as_str()),
        _ => None,
    }
}

/// A demo, where each number is within its limit.
fn demo_of<'a>(seed: &str, nights: &str, rooms: &str, stays: &str) -> Option<Task<'a>>
    ensures { IsReadOf (codes "demo" ∷ seed.now ∷ nights.now ∷ rooms.now ∷ stays.now ∷ []) result }
{
    let seed = u64::from(number_of(seed)?);
    let nights = number_within(1, MOST_NIGHTS as u32, nights)?;
    let rooms = u64::from(number_within(0, MOST_ROOMS as u32, rooms)?);
    let stays = number_within(0, MOST_STAYS as u32, stays)?;
    Some(Task::Demo {
        seed,
        nights,
        rooms,
        stays,
    })
}

/// The words behind `demo`: a seed, nights, rooms on each night, and stays.
pub(crate) fn demo_line(words: &[String]) -> Option<Task<'_>>
    ensures { IsReadOf (codes "demo" ∷ texts words.now) result }
{
    match words {
        [seed, nights, rooms, stays] => demo_of(
            seed.as_str(),
            nights.as_str(),
            rooms.as_str(),
            stays.as_str(),
        ),
        _ => None,
    }
}

/// A portfolio with as many workers as where no line says how many.
fn portfolio_of<'a>(list: &'a str) -> Option<Task<'a>>
    ensures { IsReadOf (codes "portfolio" ∷ list.now ∷ []) result }
{
    if !is_file_name(list) {
        return None;
    }
    Some(Task::Portfolio {
        list: Name::new(list),
        workers: WORKERS,
    })
}

/// A portfolio with a number of workers of its own.
fn portfolio_by<'a>(list: &'a str, option: &str, workers: &str) -> Option<Task<'a>>
    ensures { IsReadOf (codes "portfolio" ∷ list.now ∷ option.now ∷ workers.now ∷ []) result }
{
    if !is_file_name(list) || option != "--workers" {
        return None;
    }
    let workers = number_within(0, MOST_WORKERS, workers)?;
    let list = Name::new(list);
    Some(Task::Portfolio { list, workers })
}

/// The words behind `portfolio`: a list, and perhaps a number of workers.
pub(crate) fn portfolio_line(words: &[String]) -> Option<Task<'_>>
    ensures { IsReadOf (codes "portfolio" ∷ texts words.now) result }
{
    match words {
        [list] => portfolio_of(list.as_str()),
        [list, option, workers] => {
            portfolio_by(list.as_str(), option.as_str(), workers.as_str())
        }
        _ => None,
    }
}
