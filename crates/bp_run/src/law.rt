//! Laws over what commands answer, as the contracts of functions that do nothing.
ghost use Rattle.bp_cli.specs.Words.{texts};
ghost use Rattle.bp_inputs.specs.Fetches.{over};
ghost use Rattle.bp_run.specs.Laws.{IsNotPassedOver, RunsAreLegal};

use bp_edges::Shelf;

/// The journal that a desk wrote is legal by `replay` of the same four files.
pub fn runs_are_legal()
    ensures { RunsAreLegal }
{
    bp_hotelfile::law::files_give_seasons();
    bp_stayfile::law::files_give_stays();
    bp_stayfile::law::forecasts_keep_limits();
    bp_stayfile::law::bookings_fit();
    bp_stayfile::law::houses_are_in_limits();
    bp_journal::law::written_is_read();
    bp_judge::law::not_both();
}

/// No line that asks for a task is answered by the usage text, whatever the shelf holds.
pub fn plain_lines_are_served<S: Shelf>(words: &[String], shelf: &S)
    ensures { IsNotPassedOver (texts words.now) (over S.held S.faults S.fetches S.last S.steady shelf.now shelf.now) }
{}
