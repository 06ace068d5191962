//! A line of words, read by its command.
ghost use Rattle.std.specs.Prelude.{◌∷◌};
ghost use Rattle.bp_cli.specs.Words.{texts};
ghost use Rattle.bp_cli.specs.Asked.{IsAnswered};
ghost use Rattle.bp_cli.specs.Forms.{command_of};

use crate::desk::{desk_line, replay_line, report_line};
use crate::form::{Form, form_of};
use crate::plain::{
    check_line, demo_line, group_line, judge_line, portfolio_line, scenarios_line, sheet_line,
    solve_line,
};
use crate::{Task, WordsError};
use std::alloc::Global;

/// What a command's words ask for.
fn task_by<'a>(alloc: Global, form: Form, words: &'a [String]) -> Result<Task<'a>, WordsError>
    ensures { IsAnswered (command_of form ∷ texts words.entry.now) result }
{
    let task = match form {
        Form::Check => check_line(words),
        Form::Solve => solve_line(words),
        Form::Group => group_line(words),
        Form::Judge => judge_line(words),
        Form::Desk => return desk_line(alloc, words),
        Form::Replay => replay_line(words),
        Form::Report => report_line(words),
        Form::Demo => demo_line(words),
        Form::Scenarios => scenarios_line(words),
        Form::Sheet => sheet_line(words),
        Form::Portfolio => portfolio_line(words),
    };
    task.ok_or(WordsError::Usage)
}

/// What the words behind the program's name ask for, where they are a plain line; else `Usage`. `Memory` says nothing
/// of the words.
///
/// The names of files stand in the task as the words give them.
pub fn parse<'a>(alloc: Global, words: &'a [String]) -> Result<Task<'a>, WordsError>
    ensures { IsAnswered (texts words.entry.now) result }
{
    if words.is_empty() {
        return Err(WordsError::Usage);
    }
    let Some(form) = form_of(words[0].as_str()) else {
        return Err(WordsError::Usage);
    };
    task_by(alloc, form, &words[1..])
}
