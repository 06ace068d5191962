//! The command that the first word of a line names.
ghost use Rattle.std.specs.Prelude.{◌≡◌};
ghost use Rattle.bp_cli.specs.Forms.{form_of};

/// The form of a line, by its first word.
#[derive(Clone, Copy)]
pub(crate) enum Form {
    Check,
    Solve,
    Group,
    Judge,
    Desk,
    Replay,
    Report,
    Demo,
    Scenarios,
    Sheet,
    Portfolio,
}

/// The form that a command names, if it is one.
pub(crate) fn form_of(command: &str) -> Option<Form>
    ensures { result ≡ form_of command.now }
{
    match command {
        "check" => Some(Form::Check),
        "solve" => Some(Form::Solve),
        "group" => Some(Form::Group),
        "judge" => Some(Form::Judge),
        "desk" => Some(Form::Desk),
        "replay" => Some(Form::Replay),
        "report" => Some(Form::Report),
        "demo" => Some(Form::Demo),
        "scenarios" => Some(Form::Scenarios),
        "sheet" => Some(Form::Sheet),
        "portfolio" => Some(Form::Portfolio),
        _ => None,
    }
}
