//! Laws over the vectors shown, as the contracts of functions that do nothing.
ghost use Rattle.bp_show.specs.Histories.{VectorsStay, VectorsCertify};

/// The vectors of a history, each by its number, are those of each longer one.
pub fn vectors_stay()
    ensures { VectorsStay }
{}

/// The prices of each vector of a legal history are those of a certificate for the instance at its position.
pub fn vectors_certify()
    ensures { VectorsCertify }
{
    bp_types::law::certificate_is_optimal();
}
