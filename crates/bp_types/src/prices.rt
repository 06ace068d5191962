//! The prices of spans, as differences of sums of prices to the last night.
ghost use Rattle.std.specs.Prelude.{◌≡◌, ◌-◌, ◌≤◌, length, slice_index};
ghost use Rattle.bp_types.specs.declared.limits.TheConstants.{MOST_NIGHTS};
ghost use Rattle.bp_types.specs.Prices.{SumUp};

use crate::Span;
use crate::limits::MOST_NODES;

/// The sums of prices from each night to the last one, from which the price of a span is one difference. In minor units
/// of money.
#[derive(Clone, Copy)]
pub(crate) struct PriceSums {
    sums: [u128; MOST_NODES],
}

impl PriceSums {
    /// The sums of prices, of which there is one per night. It takes the time of the nights.
    pub(crate) fn of(prices: &[u64]) -> PriceSums
        requires { length prices.now ≤ MOST_NIGHTS }
        ensures { SumUp prices.now result.sums }
    {
        let mut sums = [0; MOST_NODES];
        let nights = prices.len();
        let mut sum: u128 = 0;
        for gone in 0..nights {
            let night = nights - 1 - gone;
            sum += u128::from(prices[night]);
            sums[night] = sum;
        }
        PriceSums { sums }
    }

    /// The price of a span within the nights.
    pub(crate) fn price(&self, span: Span) -> u128
        requires ordered { span.from ≤ span.to }
        requires within { span.to ≤ MOST_NIGHTS }
        ensures { result ≡ slice_index self.now.sums span.from - slice_index self.now.sums span.to }
    {
        self.sums[span.from as usize].saturating_sub(self.sums[span.to as usize])
    }
}
