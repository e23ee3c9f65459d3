//! What lines leave of changes.
ghost use Rattle.cps_final.specs.Changes.{AgreedLaw};

/// Behind lines that put the same as before, a state has those changes that they don't put.
pub fn lines_agree_on_what_they_put()
    ensures { AgreedLaw }
{}
