//! The first night that has too few units for a group.
ghost use Rattle.std.specs.Prelude.{◌≡◌, length, slice_index};
ghost use Rattle.bp_types.specs.Spans.{IsSpanWithin, first_short};

use bp_flow::Solver;
use bp_types::Span;

/// The first night of the span with fewer units than these.
pub(crate) fn first_short(solver: &Solver, span: Span, units: u64) -> Option<u32>
    requires { IsSpanWithin (length solver.now.flow.program.rooms) span }
    ensures { result ≡ first_short (slice_index solver.now.flow.program.rooms) span units }
{
    for night in span.from..span.to {
        if solver.rooms(night) < units {
            return Some(night);
        }
    }
    None
}
