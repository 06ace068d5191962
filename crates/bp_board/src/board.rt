//! A board: a certificate for a position, and the sums of its prices.
ghost use Rattle.std.specs.Prelude.{◌≡◌, ◌+◌, ◌≤◌, length, All, IfOk};
ghost use Rattle.bp_types.specs.declared.limits.TheConstants.{MOST_NIGHTS, MOST_PRICE};
ghost use Rattle.bp_types.specs.Optimum.{price_from};
ghost use Rattle.bp_types.specs.Prices.{SumUp};
ghost use Rattle.bp_types.specs.Program.{price};
ghost use Rattle.bp_types.specs.Spans.{IsSpanWithin};
ghost use Rattle.bp_board.specs.Posted.{Posted, HasPrices};

use bp_types::{Certificate, Memory, Span};
use std::alloc::Global;
use std::marker::Model;

/// A certificate for the instance at a position of a history, whose prices give that of any span at once.
///
/// Contracts see the position and the certificate.
#[derive(Debug, Drop)]
pub struct Board {
    /// How many entries of the history the certificate knows.
    position: u64,
    /// Its value, its allocation and its prices.
    certificate: Certificate,
    /// The prices of the nights from each one to the last, and 0 at the end.
    sums: Vec<u64>,
}

impl Model for Board {
    ghost use Rattle.std.specs.Prelude.{◌≡◌, ◌+◌, length};
    ghost use Rattle.bp_types.specs.Prices.{SumUp};
    ghost use Rattle.bp_board.specs.Posted.{Posted, HasPrices};

    ghost Value = { Posted };

    ghost view = { λ b. record { position = b.position; certificate = b.certificate } };

    ghost invariant = { λ b. HasPrices b.certificate × (length b.sums.items ≡ length b.certificate.prices + 1) ×
        SumUp b.certificate.prices b.sums.items };
}

impl Board {
    /// A board for a position, that is a number of entries, with a certificate of 1 to `MOST_NIGHTS` prices. It takes
    /// the time of the nights; the one error is `Memory`.
    pub fn new(alloc: Global, position: u64, certificate: Certificate) -> Result<Board, Memory>
        requires { HasPrices certificate }
        ensures { IfOk result (λ b. b ≡ record { position = position; certificate = certificate }) }
    {
        let mut sums = vec![in alloc; 0; certificate.prices.len() + 1]?;
        sum_up(&certificate.prices, &mut sums);
        Ok(Board {
            position,
            certificate,
            sums,
        })
    }

    /// How many entries of the history the certificate knows.
    pub fn position(&self) -> u64
        ensures value { result ≡ self.now.position }
        ensures prices { HasPrices self.now.certificate }
    {
        self.position
    }

    /// The value, the allocation and the prices.
    pub fn certificate(&self) -> &Certificate
        ensures value { result.now ≡ self.now.certificate }
        ensures prices { HasPrices self.now.certificate }
    {
        &self.certificate
    }

    /// How many nights have a price.
    pub fn nights(&self) -> u32
        ensures { result ≡ length self.now.certificate.prices }
    {
        self.certificate.prices.len() as u32
    }

    /// The sum of the prices from a night to the last, in minor units of money; 0 behind the last night.
    pub fn sum_from(&self, night: u32) -> u64
        requires { night ≤ length self.now.certificate.prices }
        ensures { result ≡ price_from self.now.certificate.prices night }
    {
        self.sums[night as usize]
    }

    /// The sum of the prices of a span's nights, in minor units of money: one difference, however long the span is.
    pub fn price(&self, span: Span) -> u64
        requires { IsSpanWithin (length self.now.certificate.prices) span }
        ensures { result ≡ price self.now.certificate.prices span }
    {
        self.sums[span.from as usize] - self.sums[span.to as usize]
    }
}

/// Fills in the sums of the prices from each night to the last, from the last night on.
fn sum_up(prices: &[u64], sums: &mut [u64])
    requires one_more { length sums.old ≡ length prices.now + 1 }
    requires nights { length prices.now ≤ MOST_NIGHTS }
    requires within_limit { All (λ x. x ≤ MOST_PRICE) prices.now }
    ensures { SumUp prices.now sums.new }
{
    let nights = prices.len();
    let mut sum = 0;
    sums[nights] = sum;
    for gone in 0..nights {
        let night = nights - 1 - gone;
        sum += prices[night];
        sums[night] = sum;
    }
}
