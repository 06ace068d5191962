//! A problem.
ghost use Rattle.std.specs.Prelude.{Ok};
ghost use Rattle.bp_text.specs.Reading.{IsText};
ghost use Rattle.bp_cert.specs.Texts.{problem_lines, IsProblem};
ghost use Rattle.bp_types.specs.declared.limits.TheConstants.{MOST_FILE_BYTES};
ghost use Rattle.bp_inputs.specs.TextFiles.{IsNoText};

use crate::files::Kind;
use crate::unread::Unread;
use bp_cert::read_problem;
use bp_types::Instance;
use bp_types::limits::MOST_FILE_BYTES;
use std::alloc::Global;

/// A problem. The value is its instance.
#[derive(Clone, Copy)]
pub struct ProblemFile;

impl Kind for ProblemFile {
    type Value = Instance;

    ghost most = { λ k. MOST_FILE_BYTES };

    ghost needs = { λ k. Unit {0} };

    ghost accepts = { λ k bytes p. IsText problem_lines IsProblem bytes (Ok p) };

    ghost refuses = { λ k. IsNoText problem_lines IsProblem };

    ghost keeps = { λ k p. IsProblem p };

    fn most_bytes(&self) -> u64 {
        MOST_FILE_BYTES
    }

    fn read(&self, alloc: Global, bytes: &[u8]) -> Result<Instance, Unread> {
        Ok(read_problem(alloc, bytes)?)
    }
}
