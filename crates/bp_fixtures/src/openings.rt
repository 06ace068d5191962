//! Houses, instances and boards made of such numbers. A claim is checked before a board has it.
ghost use Rattle.std.specs.Prelude.{◌≡◌, length, IfOk};
ghost use Rattle.std.specs.Arc.{arc_value};
ghost use Rattle.bp_types.specs.Claim.{IsCertificateOf};

use crate::{Claimed, NOTHING_SOLD, ROOMS, STAYS};
use bp_board::Board;
use bp_cert::{Verdict, check};
use bp_types::{Certificate, House, Instance, Limits, Memory, Stay};
use std::alloc::Global;
use std::sync::Arc;
use std::test::Fail;

/// The house of these rooms and sold rooms by night, these stays and these limits. It fails where they break one.
pub fn house(
    alloc: Global,
    rooms: &[u64],
    sold: &[u64],
    stays: &[Stay],
    limits: Limits,
) -> Result<House, Fail>
    ensures { IfOk result (λ h. h ≡ record { rooms = rooms.now; sold = sold.now; stays = stays.now; limits = limits }) }
{
    let rooms = Vec::from_slice(alloc, rooms)?;
    let sold = Vec::from_slice(alloc, sold)?;
    let stays = Vec::from_slice(alloc, stays)?;
    match House::new(rooms, sold, stays, limits) {
        Ok(house) => Ok(house),
        Err(error) => Err(Fail::new(error)),
    }
}

/// The house of the four stays on three nights, with nothing sold. It fails where it breaks one of these limits.
pub fn three_nights(alloc: Global, limits: Limits) -> Result<House, Fail>
    ensures nights { IfOk result (λ h. length h.rooms ≡ 3) }
    ensures stays { IfOk result (λ h. length h.stays ≡ 4) }
    ensures limits { IfOk result (λ h. h.limits ≡ limits) }
{
    house(alloc, &ROOMS, &NOTHING_SOLD, &STAYS, limits)
}

/// The instance of these rooms by night and these stays. It fails where they break a limit.
pub fn instance(alloc: Global, rooms: &[u64], stays: &[Stay]) -> Result<Instance, Fail>
    ensures { IfOk result (λ p. p ≡ record { rooms = rooms.now; stays = stays.now }) }
{
    let rooms = Vec::from_slice(alloc, rooms)?;
    let stays = Vec::from_slice(alloc, stays)?;
    match Instance::new(rooms, stays) {
        Ok(instance) => Ok(instance),
        Err(error) => Err(Fail::new(error)),
    }
}

/// The certificate with these numbers, right or not. The one error is `Memory`.
pub fn certificate(alloc: Global, claimed: Claimed<'_>) -> Result<Certificate, Memory>
    ensures { IfOk result (λ c. c ≡ record {
      value = claimed.entry.0;
      sell = claimed.entry.1.now;
      prices = claimed.entry.2.now;
    }) }
{
    Ok(Certificate {
        value: claimed.0,
        sell: Vec::from_slice(alloc, claimed.1)?,
        prices: Vec::from_slice(alloc, claimed.2)?,
    })
}

/// The certificate with these numbers, where nothing is worth more; a failure that names the verdict elsewhere.
pub fn optimal(
    alloc: Global,
    instance: &Instance,
    claimed: Claimed<'_>,
) -> Result<Certificate, Fail>
    ensures { IfOk result (λ c. IsCertificateOf instance.now c) }
{
    let certificate = certificate(alloc, claimed)?;
    match check(instance, &certificate) {
        Verdict::Optimal { .. } => Ok(certificate),
        verdict => Err(Fail::new(format_args!("{verdict:?}"))),
    }
}

/// The board of these numbers for a position, where nothing is worth more; else a failure that names the verdict.
pub fn board_of(
    alloc: Global,
    instance: &Instance,
    position: u64,
    claimed: Claimed<'_>,
) -> Result<Arc<Board>, Fail>
    ensures { IfOk result (λ b. ((arc_value b).position ≡ position) ×
        IsCertificateOf instance.now (arc_value b).certificate) }
{
    let certificate = optimal(alloc, instance, claimed)?;
    let _nights = instance.nights();
    let board = Board::new(alloc, position, certificate)?;
    Ok(Arc::new(alloc, board)?)
}

/// The board that a desk opens with, where the certificate is right for the house as it is then; else a failure that
/// names the verdict.
pub fn opening_board(
    alloc: Global,
    start: &Instance,
    certificate: Certificate,
) -> Result<Arc<Board>, Fail>
    ensures { IfOk result (λ b. ((arc_value b).position ≡ 0) × IsCertificateOf start.now (arc_value b).certificate) }
{
    let _nights = start.nights();
    match check(start, &certificate) {
        Verdict::Optimal { .. } => Ok(Arc::new(alloc, Board::new(alloc, 0, certificate)?)?),
        verdict => Err(Fail::new(format_args!("{verdict:?}"))),
    }
}
