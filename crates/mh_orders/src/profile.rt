//! The mixes of events that random scripts may have, by their names. A text is read as the profile that it names, and
//! as none if it names none. The program reads it and not `clap`, since a list of names holds references, which no
//! definition can name.
use std::str::FromStr;
use thiserror::Error;

/// Which mix of events a script has.
#[derive(Clone, Copy, Debug, PartialEq, Eq)]
pub enum Profile {
    /// Small objects of all kinds, most of which live shortly.
    Churn,
    /// Long lists that are built, walked and cut.
    Lists,
    /// Trees that are joined, walked and pruned.
    Trees,
    /// Objects of many references.
    Wide,
    /// Objects of many blocks, with sizes at and beside the limits of blocks and spines.
    Large,
    /// Objects of all classes, of which few are kept, so that pages become sparse.
    Fragments,
    /// Commands that are refused, for each reason.
    Refusals,
    /// References that are moved, hidden and cut while the collector looks for them.
    Barriers,
    /// Objects with thousands of references, so that as many objects are grey at once.
    Comb,
    /// A chain of objects of many references, each to an object of its own, so that a collector which looks at the last
    /// reference first has nearly all of them waiting.
    Fans,
    /// Sessions that share few objects, and never write one number twice.
    Race,
    /// Few objects that live, so that hundreds of cycles come.
    Cycles,
    /// The first seven in turn.
    Mixed,
}

/// A text that names no profile.
#[derive(Clone, Copy, Debug, PartialEq, Eq, Error)]
#[error("not churn, lists, trees, wide, large, frag, refusals, barriers, comb, fans, race, cycles or mixed")]
pub struct UnknownProfile;

impl FromStr for Profile {
    ghost use Rattle.mh_orders.specs.Profiles.{NamesProfile};

    type Err = UnknownProfile;

    ghost from_str_gives = { NamesProfile };

    fn from_str(text: &str) -> Result<Profile, UnknownProfile> {
        match text {
            "churn" => Ok(Profile::Churn),
            "lists" => Ok(Profile::Lists),
            "trees" => Ok(Profile::Trees),
            "wide" => Ok(Profile::Wide),
            "large" => Ok(Profile::Large),
            "frag" => Ok(Profile::Fragments),
            "refusals" => Ok(Profile::Refusals),
            "barriers" => Ok(Profile::Barriers),
            "comb" => Ok(Profile::Comb),
            "fans" => Ok(Profile::Fans),
            "race" => Ok(Profile::Race),
            "cycles" => Ok(Profile::Cycles),
            "mixed" => Ok(Profile::Mixed),
            _ => Err(UnknownProfile),
        }
    }
}
