//! The checker: whether a certificate certifies an instance, and else the first test that it fails.
ghost use Rattle.std.specs.Prelude.{◌≡◌, ℕ, ◌<◌, ◌≤◌, length, slice_index, MatchOption};
ghost use Rattle.bp_types.specs.Program.{load, stay_at};
ghost use Rattle.bp_types.specs.Optimum.{Certifies};
ghost use Rattle.bp_cert.specs.Verdicts.{IsVerdict, SaysOptimum, IsFirstAbove, NoneAbove};

use crate::loads::Loads;
use bp_types::limits::MOST_PRICE;
use bp_types::{Certificate, Instance, law};

/// What a check finds: the first test that a certificate fails, at its first place, or the optimum.
#[derive(Clone, Copy, Debug, PartialEq, Eq)]
pub enum Verdict {
    /// Not one number per stay, or not one price per night.
    WrongLength,
    /// A price above 1,000,000,000.
    PriceTooGreat { night: u32 },
    /// More is sold of the stay than its forecast.
    AboveForecast { stay: u32 },
    /// The night's load, in units, is more than its rooms.
    Overfull { night: u32, load: u128 },
    /// The worth of the allocation is not the bound of the prices; both in minor units of money, times the unit.
    Gap { worth: u128, bound: u128 },
    /// Worth and bound agree, and the stated value is another.
    Misvalued { worth: u128 },
    /// The certificate proves that this is the optimum.
    Optimal { value: u128 },
}

/// Checks a certificate: the first verdict that holds, in the order of `Verdict`, each at its first place. Its time
/// grows with nights plus stays.
///
/// By weak duality a feasible allocation whose worth is the bound of the prices is optimal, and so are the prices. The
/// two sums are equal exactly where complementary slackness holds: each night that has a price is full, and of each
/// stay the forecast is sold where its rate is above the price of its nights, and nothing where it is below. Comparing
/// the sums tests all of this at once.
pub fn check(instance: &Instance, certificate: &Certificate) -> Verdict
    ensures first { IsVerdict instance.now certificate.now result }
    ensures exact { Certifies instance.now certificate.now.value certificate.now.sell certificate.now.prices →
        result ≡ Verdict.Optimal certificate.now.value }
    ensures optimum { SaysOptimum instance.now result }
{
    law::certificate_is_optimal();
    first_verdict(instance, certificate)
}

/// The first test that the certificate fails, or the optimum.
fn first_verdict(instance: &Instance, certificate: &Certificate) -> Verdict
    ensures first { IsVerdict instance.now certificate.now result }
    ensures exact { Certifies instance.now certificate.now.value certificate.now.sell certificate.now.prices →
        result ≡ Verdict.Optimal certificate.now.value }
{
    let sell = certificate.sell.as_slice();
    let prices = certificate.prices.as_slice();
    if sell.len() != instance.stays() as usize || prices.len() != instance.nights() as usize {
        return Verdict::WrongLength;
    }
    if let Some(night) = price_too_great(prices, instance.nights()) {
        return Verdict::PriceTooGreat { night };
    }
    if let Some(stay) = above_forecast(instance, sell) {
        return Verdict::AboveForecast { stay };
    }
    if let Some((night, load)) = overfull_night(instance, sell) {
        return Verdict::Overfull { night, load };
    }
    let worth = instance.worth(sell);
    let bound = instance.bound_of(prices);
    if worth != bound {
        return Verdict::Gap { worth, bound };
    }
    if worth != certificate.value {
        return Verdict::Misvalued { worth };
    }
    Verdict::Optimal { value: worth }
}

/// The first night whose price is above the greatest.
fn price_too_great(prices: &[u64], nights: u32) -> Option<u32>
    requires { length prices.now ≡ nights }
    ensures { MatchOption result
        (NoneAbove (λ _. MOST_PRICE) (slice_index prices.now) nights)
        (λ n. IsFirstAbove (λ _. MOST_PRICE) (slice_index prices.now) nights n) }
{
    for night in 0..nights {
        if prices[night as usize] > MOST_PRICE {
            return Some(night);
        }
    }
    None
}

/// The first stay of which more is sold than its forecast.
fn above_forecast(instance: &Instance, sell: &[u64]) -> Option<u32>
    requires { length sell.now ≡ length instance.now.stays }
    ensures { MatchOption result
        (NoneAbove (λ j. (stay_at instance.now j).forecast) (slice_index sell.now) (length instance.now.stays))
        (λ j. IsFirstAbove (λ j. (stay_at instance.now j).forecast) (slice_index sell.now) (length instance.now.stays)
        j) }
{
    for stay in 0..instance.stays() {
        if sell[stay as usize] > instance.stay(stay).forecast {
            return Some(stay);
        }
    }
    None
}

/// The first night whose load is more than its rooms, with that load.
fn overfull_night(instance: &Instance, sell: &[u64]) -> Option<(u32, u128)>
    requires one_each { length sell.now ≡ length instance.now.stays }
    requires within { NoneAbove (λ j. (stay_at instance.now j).forecast) (slice_index sell.now)
        (length instance.now.stays) }
    ensures { MatchOption result
        (NoneAbove (slice_index instance.now.rooms) (load instance.now sell.now) (length instance.now.rooms))
        (λ w. IsFirstAbove (slice_index instance.now.rooms) (load instance.now sell.now) (length instance.now.rooms)
        w.0 × (w.1 ≡ load instance.now sell.now w.0)) }
{
    let loads = Loads::of(instance, sell);
    for night in 0..instance.nights() {
        let load = loads.on(night);
        if load > instance.rooms(night) {
            return Some((night, u128::from(load)));
        }
    }
    None
}
