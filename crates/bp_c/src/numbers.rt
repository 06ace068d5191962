//! The solver over numbers.
ghost use Rattle.std.specs.Prelude.{◌≡◌, ◌≢◌, ◌⊎◌, ◌↔◌, ◌<◌, ◌^◌, length, IsTrue, Some, None, IfOk, MatchResult};
ghost use Rattle.bp_types.specs.Limits.{refusal, IsWithinLimits};
ghost use Rattle.bp_types.specs.Claim.{IsLeastCertificate};
ghost use Rattle.bp_c.specs.Columns.{stays_in, program_in, HaveOneLength, FitTogether};
ghost use Rattle.bp_c.specs.Answers.{IsNumbersAnswer};
ghost use Rattle.bp_c.specs.Refusals.{IsRefusal};

use crate::Refusal;
use crate::least::least_certificate;
use crate::refusal::refusal_from;
use bp_types::{Certificate, Instance, InstanceError, Memory, Span, Stay};
use std::alloc::{AllocError, Global};

/// The numbers were solved.
const SOLVED: u32 = 0;

/// A limit refuses the numbers.
const REFUSED: u32 = 3;

/// There was no memory.
const NO_MEMORY: u32 = 6;

/// A slice has not the length that it must have.
const LENGTHS: u32 = 8;

/// Why numbers are not solved.
enum Failure {
    /// A limit refuses them.
    Refused(InstanceError),
    /// There was no memory.
    Memory,
}

/// One stay for each row of the columns.
fn stays_of(
    alloc: Global,
    from: &[u32],
    to: &[u32],
    rate: &[u64],
    forecast: &[u64],
) -> Result<Vec<Stay>, AllocError>
    requires { HaveOneLength from.now to.now rate.now forecast.now }
    ensures { IfOk result (λ stays. stays.items ≡ stays_in from.now to.now rate.now forecast.now) }
{
    let mut stays = Vec::with_capacity(alloc, from.len())?;
    for row in 0..from.len() {
        stays.push(Stay {
            span: Span {
                from: from[row],
                to: to[row],
            },
            rate: rate[row],
            forecast: forecast[row],
        })?;
    }
    Ok(stays)
}

/// The certificate of the rooms and the columns, or why there is none.
fn solve_columns(
    alloc: Global,
    rooms: &[u64],
    from: &[u32],
    to: &[u32],
    rate: &[u64],
    forecast: &[u64],
) -> Result<Certificate, Failure>
    requires { HaveOneLength from.now to.now rate.now forecast.now }
    ensures { IsNumbersAnswer rooms.now (stays_in from.now to.now rate.now forecast.now) result }
{
    let Ok(stays) = stays_of(alloc, from, to, rate, forecast) else {
        return Err(Failure::Memory);
    };
    let Ok(rooms) = Vec::from_slice(alloc, rooms) else {
        return Err(Failure::Memory);
    };
    match Instance::new(rooms, stays) {
        Ok(instance) => {
            let _nights = instance.nights();
            match least_certificate(alloc, &instance) {
                Ok(certificate) => Ok(certificate),
                Err(Memory) => Err(Failure::Memory),
            }
        }
        Err(error) => Err(Failure::Refused(error)),
    }
}

/// Whether each slice has its length.
fn fit_together(
    rooms: &[u64],
    from: &[u32],
    to: &[u32],
    rate: &[u64],
    forecast: &[u64],
    sell: &[u64],
    prices: &[u64],
) -> bool
    ensures { IsTrue result ↔ FitTogether rooms.now from.now to.now rate.now forecast.now sell.now prices.now }
{
    let stays = from.len();
    to.len() == stays
        && rate.len() == stays
        && forecast.len() == stays
        && sell.len() == stays
        && prices.len() == rooms.len()
}

/// Solves the program of these rooms and stays, and gives its certificate with the least prices, by a cold solve.
///
/// Row j of the columns is stay j: it sleeps from night `from[j]` up to the morning of night `to[j]`, pays `rate[j]` in
/// minor units of money, and `forecast[j]` units are expected to ask for it. The answer is 0 with the value, how many
/// units of each stay are sold and the price of each night; 3 with the limit that refuses the numbers; 6 without
/// memory; 8 where a slice has not its length. Other than at 0, nothing but the refusal is written.
#[unsafe(no_mangle)]
pub extern "C" fn bidprice_solve_numbers(
    alloc: Global,
    rooms: &[u64],
    from: &[u32],
    to: &[u32],
    rate: &[u64],
    forecast: &[u64],
    value: &mut u64,
    sell: &mut [u64],
    prices: &mut [u64],
    refused: &mut Refusal,
) -> u32
    ensures known { (result ≡ SOLVED) ⊎ (result ≡ REFUSED) ⊎ (result ≡ NO_MEMORY) ⊎ (result ≡ LENGTHS) }
    ensures lengths { result ≡ LENGTHS
        ↔ (FitTogether rooms.now from.now to.now rate.now forecast.now sell.old prices.old → ⊥) }
    ensures solved { result ≡ SOLVED → IsLeastCertificate (program_in rooms.now from.now to.now rate.now forecast.now)
        (record { value = value.new; sell = sell.new; prices = prices.new }) }
    ensures accepted { result ≡ SOLVED → refusal rooms.now (stays_in from.now to.now rate.now forecast.now) ≡ None }
    ensures refused { result ≡ REFUSED
        → IsRefusal (refusal rooms.now (stays_in from.now to.now rate.now forecast.now)) refused.new }
    ensures value_kept { result ≢ SOLVED → value.new ≡ value.old }
    ensures sell_kept { result ≢ SOLVED → sell.new ≡ sell.old }
    ensures prices_kept { result ≢ SOLVED → prices.new ≡ prices.old }
    ensures refused_kept { result ≢ REFUSED → refused.new ≡ refused.old }
{
    if !fit_together(rooms, from, to, rate, forecast, sell, prices) {
        return LENGTHS;
    }
    match solve_columns(alloc, rooms, from, to, rate, forecast) {
        Ok(certificate) => {
            *value = certificate.value as u64;
            sell.copy_from_slice(&certificate.sell);
            prices.copy_from_slice(&certificate.prices);
            SOLVED
        }
        Err(Failure::Refused(error)) => {
            *refused = refusal_from(error);
            REFUSED
        }
        Err(Failure::Memory) => NO_MEMORY,
    }
}
