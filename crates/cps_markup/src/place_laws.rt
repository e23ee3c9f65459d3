//! What holds of the identifiers of places.
ghost use Rattle.cps_markup.specs.PlaceLaws.{IdentifiersDiffer};

/// Two places that are written have two identifiers.
pub fn identifiers_differ()
    ensures { IdentifiersDiffer }
{}
