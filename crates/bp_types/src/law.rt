//! Laws over the definitions, as the contracts of functions that do nothing.
ghost use Rattle.bp_types.specs.Laws.{
  WeakDuality,
  CertificateIsOptimal,
  OptimumIsUnique,
  LeastPricesAreUnique,
  DisplacementIsUnique,
  CertificatesTellDisplacement,
  GainIsBelowPrice,
  PriceIsBelowLoss,
  ChangesAppend,
  FitsAppend,
};

/// Weak duality of the linear program: no feasible allocation, whole or fractional, is worth more than the bound of any
/// prices.
pub fn weak_duality()
    ensures { WeakDuality }
{}

/// The value that a certificate states is the optimum: its allocation reaches it, and by weak duality none is worth
/// more.
pub fn certificate_is_optimal()
    ensures { CertificateIsOptimal }
{}

/// There is one optimum at most.
pub fn optimum_is_unique()
    ensures { OptimumIsUnique }
{}

/// There is one list of least prices at most.
pub fn least_prices_are_unique()
    ensures { LeastPricesAreUnique }
{}

/// There is one displacement at most.
pub fn displacement_is_unique()
    ensures { DisplacementIsUnique }
{}

/// Certificates of an instance and of the same with fewer units tell what the units displace.
pub fn certificates_tell_displacement()
    ensures { CertificatesTellDisplacement }
{}

/// Optimal prices lie in the band: no gain of a night is above its price, and no loss below it.
pub fn prices_lie_in_the_band()
    ensures gain { GainIsBelowPrice }
    ensures loss { PriceIsBelowLoss }
{
    weak_duality();
    optimum_is_unique();
}

/// Changes that are made in two goes lead where they lead in one, and fit in one where they fit in two.
pub fn changes_append()
    ensures changes { ChangesAppend }
    ensures fits { FitsAppend }
{}
