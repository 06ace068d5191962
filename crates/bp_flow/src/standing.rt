//! Whether what is sold of a stay is right at another rate.
ghost use Rattle.std.specs.Prelude.{◌<◌, length, IsTrue};
ghost use Rattle.bp_residual.specs.Network.{Priced};
ghost use Rattle.bp_flow.specs.Rates.{StandsAtRate};

use bp_residual::Flow;

/// Whether what is sold of a stay is right at another rate too: all of it where that is above what the prices ask for
/// its nights, and none where it is below.
pub(crate) fn stands_at_rate(flow: &Flow, stay: u32, rate: u64) -> bool
    requires { stay < length flow.now.flow.program.stays }
    ensures { IsTrue result → StandsAtRate flow.now stay rate }
{
    let terms = flow.stay(stay);
    let sold = flow.sold(stay);
    let from = u128::from(flow.level(terms.span.from));
    let to = u128::from(flow.level(terms.span.to)) + u128::from(rate);
    (terms.forecast <= sold || to <= from) && (sold == 0 || from <= to)
}
