//! A certificate.
ghost use Rattle.std.specs.Prelude.{Ok};
ghost use Rattle.bp_text.specs.Reading.{IsText};
ghost use Rattle.bp_cert.specs.Texts.{all_certificate_lines, IsSpeakable};
ghost use Rattle.bp_types.specs.declared.limits.TheConstants.{MOST_FILE_BYTES};
ghost use Rattle.bp_inputs.specs.TextFiles.{IsNoText};

use crate::files::Kind;
use crate::unread::Unread;
use bp_cert::read_certificate;
use bp_types::Certificate;
use bp_types::limits::MOST_FILE_BYTES;
use std::alloc::Global;

/// The certificate of a problem, whichever it is. The value is the certificate.
#[derive(Clone, Copy)]
pub struct CertificateFile;

impl Kind for CertificateFile {
    type Value = Certificate;

    ghost most = { λ k. MOST_FILE_BYTES };

    ghost needs = { λ k. Unit {0} };

    ghost accepts = { λ k bytes c. IsText all_certificate_lines IsSpeakable bytes (Ok c) };

    ghost refuses = { λ k. IsNoText all_certificate_lines IsSpeakable };

    ghost keeps = { λ k c. IsSpeakable c };

    fn most_bytes(&self) -> u64 {
        MOST_FILE_BYTES
    }

    fn read(&self, alloc: Global, bytes: &[u8]) -> Result<Certificate, Unread> {
        Ok(read_certificate(alloc, bytes)?)
    }
}
