//! The picture of a heap, and the laws that deeds draw it: each is what a function with nothing to do ensures.
ghost use Rattle.mh_tell_laws.specs.PictureLaws.{RunsTellThePicture, PictureGivesTheDump};

/// From the empty picture the accounts of a run draw the picture after it.
pub fn runs_tell_the_picture()
    ensures { RunsTellThePicture }
{}

/// Two heaps of one picture have one dump.
pub fn picture_gives_the_dump()
    ensures { PictureGivesTheDump }
{}
