//! Laws over histories, as the contracts of functions that do nothing.
ghost use Rattle.bp_core.specs.Laws.{PrefixesAreLegal, NeverOversold, DeltasLead, EveryListIsLegal};
ghost use Rattle.bp_core.specs.Staying.{
  RightStaysRight,
  AnsweredContinues,
  ContinuedIsPrefix,
  MayLogByOwn,
  ChangesGrow,
  NumberNeverFalls,
  ChangesStay,
  InstanceStays,
  InstanceAtStart,
  DeltasAppend,
  DeltasLast,
};
ghost use Rattle.bp_core.specs.Counting.{
  NothingMore,
  JustThese,
  VectorBetween,
  TurnsSettle,
  LastPositionWithin,
  LastBoardIsLast,
  LeaveIsLast,
  CommandsAddUp,
};
ghost use Rattle.bp_core.specs.Replying.{LastLineIsLegal, OneReply, AnswersSay};
ghost use Rattle.bp_core.specs.Headline.{AcceptedExactly, VectorsAreOptimal, VectorsAreNewer, LeastIsKept};

/// Each prefix of a legal history that is not empty is legal.
pub fn prefixes_are_legal()
    ensures { PrefixesAreLegal }
{}

/// In a legal history no night is sold above its rooms, and the instance keeps to its limits, at every position.
pub fn never_oversold()
    ensures { NeverOversold }
{}

/// The changes that stand between two positions of a legal history lead from the instance at the one to that at the
/// other, each within the limits.
pub fn deltas_lead()
    ensures { DeltasLead }
{}

/// From the opening on, whatever list of calls that meet their conditions is made, the history is legal and no night is
/// oversold.
pub fn every_list_is_legal()
    ensures { EveryListIsLegal }
{}

/// A board or a quote that is right for a history is right for each longer one.
pub fn right_stays_right()
    ensures { RightStaysRight }
{}

/// Whatever a call is answered, the house is the same and the history goes on.
pub fn answered_continues()
    ensures { AnsweredContinues }
{}

/// A history that goes on begins with the one before.
pub fn continued_is_prefix()
    ensures { ContinuedIsPrefix }
{}

/// Whether a caller may log depends on its own entries alone.
pub fn may_log_by_own()
    ensures { MayLogByOwn }
{}

/// Up to a later place there are no fewer changes.
pub fn changes_grow()
    ensures { ChangesGrow }
{}

/// While a history grows the number of its last vector does not fall.
pub fn number_never_falls()
    ensures { NumberNeverFalls }
{}

/// The changes between two positions stand there in each longer history.
pub fn changes_stay()
    ensures { ChangesStay }
{}

/// The instance at a position is the same in each longer history.
pub fn instance_stays()
    ensures { InstanceStays }
{}

/// Before any line the instance is that of the house.
pub fn instance_at_start()
    ensures { InstanceAtStart }
{}

/// What stands up to a position and what stands from there on is what stands in both.
pub fn deltas_append()
    ensures { DeltasAppend }
{}

/// What the entries between two positions change is the same in each longer history.
pub fn deltas_last()
    ensures { DeltasLast }
{}

/// A history that has of each caller the entries of a prefix, and no more, is that prefix.
pub fn nothing_more()
    ensures { NothingMore }
{}

/// A history that has these lines in their order, and of each caller no more than they have, is these lines.
pub fn just_these()
    ensures { JustThese }
{}

/// Where so many changes stood after the last vector and later fewer do, a vector was published in between.
pub fn vector_between()
    ensures { VectorBetween }
{}

/// How the turns of one who publishes for so many changes are settled.
pub fn turns_settle()
    ensures { TurnsSettle }
{}

/// The last vector of a legal history is for a position of it.
pub fn last_position_within()
    ensures { LastPositionWithin }
{}

/// In a legal history the last of the boards is there, and the last position and prices are its own.
pub fn last_board_is_last()
    ensures { LastBoardIsLast }
{}

/// Who has left has no later entry.
pub fn leave_is_last()
    ensures { LeaveIsLast }
{}

/// The command entries are those of all callers added up.
pub fn commands_add_up()
    ensures { CommandsAddUp }
{}

/// The last line of a legal history may stand after those before it.
pub fn last_line_is_legal()
    ensures { LastLineIsLegal }
{}

/// There is one reply.
pub fn one_reply()
    ensures { OneReply }
{
    bp_types::law::displacement_is_unique();
}

/// What an answer to a command says: it is logged, or there is a cause and the book is as it was.
pub fn answers_say()
    ensures { AnswersSay }
{}

/// In a legal history a Book is accepted exactly where the stay's rate is at least the sum of the prices of its nights
/// in the last vector before it, and every night of the stay has a room.
pub fn accepted_exactly()
    ensures { AcceptedExactly }
{}

/// Each vector has the optimum of the instance at the position that it names as its value.
pub fn vectors_are_optimal()
    ensures { VectorsAreOptimal }
{
    bp_types::law::certificate_is_optimal();
}

/// Each later vector has a change at least between the last vector's position and its own.
pub fn vectors_are_newer()
    ensures { VectorsAreNewer }
{}

/// A vector that is logged has as many changes behind the last vector's position as its call asks for.
pub fn least_is_kept()
    ensures { LeastIsKept }
{}
