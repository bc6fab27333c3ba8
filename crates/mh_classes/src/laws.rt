//! Laws of the parts of an object of at most 216,000 fields. Each part has a class, and the references and numbers that
//! its header says. Its counts and its part number fit the packed header.
ghost use Rattle.mh_classes.specs.PartLaws.{PartsHaveClasses, PartsFitTheirHeaders, PartsAreFew};

/// Each part has a class.
pub fn parts_have_classes()
    ensures { PartsHaveClasses }
{}

/// Each part has the references and numbers that its header states, and the counts in the header have 20 bits.
pub fn parts_fit_their_headers()
    ensures { PartsFitTheirHeaders }
{}

/// There are 3,661 parts at most, so the number of a part has 24 bits.
pub fn parts_are_few()
    ensures { PartsAreFew }
{}
