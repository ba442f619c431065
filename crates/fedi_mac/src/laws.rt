//! Laws of the definitions, each the contract of a function that does nothing.

ghost use Rattle.fedi_mac.specs.Examples.{StandardCodes};

/// The codes of RFC 4231 are those that the definition gives.
#[tactic(auto, using(crate::proofs::Examples::standard_codes))]
pub fn codes_are_standard()
    ensures { StandardCodes }
{}
