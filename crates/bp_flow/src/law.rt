//! Laws over the definitions, as the contracts of functions that do nothing.
ghost use Rattle.bp_flow.specs.Laws.{SolvedFlowsCertify, SolvedProgramsAreSolvable};

/// What a solver keeps between calls is enough for a certificate: the allocation, the prices and the revenue.
pub fn solved_flows_certify()
    ensures { SolvedFlowsCertify }
{}

/// It is enough for least prices too, though it need not have them: distances to the last node exist, whether a search
/// finds them or not.
pub fn solved_programs_are_solvable()
    ensures { SolvedProgramsAreSolvable }
{}
