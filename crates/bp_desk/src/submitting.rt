//! Certificates from outside: checked for the instance at their position, and then published.
ghost use Rattle.std.specs.Prelude.{◌≡◌, ◌≤◌, length, MatchResult};
ghost use Rattle.std.specs.Arc.{arc_value};
ghost use Rattle.bp_types.specs.Claim.{IsCertificateOf};
ghost use Rattle.bp_types.specs.House.{opening};
ghost use Rattle.bp_core.specs.Instance.{instance_at};
ghost use Rattle.bp_desk.specs.Submitting.{HasReadOn, IsUnfit, is_optimal, IsSubmitted};

use crate::carried::Carried;
use crate::desk::Desk;
use crate::pass::Pass;
use crate::replies::PublishStop;
use bp_board::Board;
use bp_cert::{Verdict, check};
use bp_types::{Certificate, Instance};
use std::alloc::Global;
use std::sync::{Arc, Wait};

/// Why a certificate from outside was not published: the first cause that holds. Nothing was logged.
#[derive(Clone, Copy, Debug, PartialEq, Eq)]
pub enum SubmitError {
    /// The history has this length, and the position is past it.
    Position { length: u64 },
    /// There was no memory for the instance or the board.
    Memory,
    /// What the check of the certificate finds, for the instance at the position.
    NotOptimal { verdict: Verdict },
    /// So many changes stand from the last vector's position to this one, which are none.
    Superseded { position: u64, changes: u64 },
    /// As many vectors as the limits allow are published.
    PublicationsFull,
}

impl Desk {
    /// Publishes a certificate from outside for a position, and answers the number of its vector. It enters only after
    /// the check has found it optimal for the instance at the position; its prices need not be the least ones. `start`
    /// is the instance of the house. After an error nothing was logged.
    ///
    /// It takes a turn to find the length, one for each batch of changes up to the position, and one to publish. The
    /// check, whose time grows with nights plus stays, is made between turns.
    pub fn submit<R: Wait>(
        &self,
        rt: &R,
        alloc: Global,
        pass: &mut Pass,
        start: &Instance,
        position: u64,
        certificate: Certificate,
    ) -> Result<u64, SubmitError>
        requires desk { pass.old.desk ≡ self.now }
        requires start { start.now ≡ opening pass.old.house }
        ensures { IsSubmitted pass.old pass.new position certificate result }
    {
        let length = self.lag(rt, pass).length;
        if position > length {
            return Err(SubmitError::Position { length });
        }
        let board = match self.checked(rt, alloc, pass, start, position, certificate) {
            Ok(board) => board,
            Err(error) => return Err(error),
        };
        match self.publish(rt, pass, board, 1) {
            Ok(number) => Ok(number),
            Err(PublishStop::Superseded { position, changes }) => {
                Err(SubmitError::Superseded { position, changes })
            }
            Err(PublishStop::PublicationsFull) => Err(SubmitError::PublicationsFull),
        }
    }

    /// The board of a certificate that is right for the instance at a position.
    fn checked<R: Wait>(
        &self,
        rt: &R,
        alloc: Global,
        pass: &mut Pass,
        start: &Instance,
        position: u64,
        certificate: Certificate,
    ) -> Result<Arc<Board>, SubmitError>
        requires desk { pass.old.desk ≡ self.now }
        requires seen { position ≤ length pass.old.seen }
        requires start { start.now ≡ opening pass.old.house }
        ensures pass { HasReadOn pass.old pass.new }
        ensures board { MatchResult result
            (λ b. (arc_value b ≡ record { position = position; certificate = certificate }) ×
            IsCertificateOf (instance_at pass.old.house pass.old.seen position) certificate)
            (IsUnfit (instance_at pass.old.house pass.old.seen position) certificate) }
    {
        pass.facts();
        let Ok(mut carried) = Carried::of(alloc, pass, start) else {
            return Err(SubmitError::Memory);
        };
        self.carry_to(rt, pass, &mut carried, position);
        let verdict = check(&carried.instance, &certificate);
        if !is_optimal(&verdict) {
            return Err(SubmitError::NotOptimal { verdict });
        }
        board_of(alloc, &carried.instance, position, certificate)
    }
}

/// The board of a certificate.
fn board_of(
    alloc: Global,
    instance: &Instance,
    position: u64,
    certificate: Certificate,
) -> Result<Arc<Board>, SubmitError>
    requires { IsCertificateOf instance.now certificate }
    ensures { MatchResult result
        (λ b. arc_value b ≡ record { position = position; certificate = certificate })
        (λ e. e ≡ SubmitError.Memory) }
{
    let _nights = instance.nights();
    let Ok(board) = Board::new(alloc, position, certificate) else {
        return Err(SubmitError::Memory);
    };
    match Arc::new(alloc, board) {
        Ok(board) => Ok(board),
        Err(_) => Err(SubmitError::Memory),
    }
}

/// Whether a verdict is that the certificate is optimal.
fn is_optimal(verdict: &Verdict) -> bool
    ensures { result ≡ is_optimal verdict.now }
{
    matches!(verdict, Verdict::Optimal { .. })
}
