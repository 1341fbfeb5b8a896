//! A law of contributions: a function with an empty body, whose contract states it.
ghost use Rattle.rr_contrib.specs.Validity.{ValidityIsTested};

/// The test made when a cell is read says whether the contribution is valid.
pub fn validity_is_tested()
    ensures { ValidityIsTested }
{}
