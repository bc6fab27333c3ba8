//! The parts of an object: one block for up to 60 fields, and else a spine, middle spines and arraylets. Objects in
//! arraylets are Metronome's (Bacon, Cheng and Rajan, POPL 2003).
//!
//! The parts are the model's. There are none exactly for more fields than the rules allow. Above 3,600 fields middle
//! spines stand between the spine and its arraylets.
ghost use Rattle.std.specs.Prelude.{◌≡◌, ◌<◌, ◌+◌, IfSome, IsNone, ◌↔◌};
ghost use Rattle.mh_model.specs.{Classes.parts, World.most_fields_under};

pub use crate::part::{Part, Parts};
use mh_model::config::Rules;

/// The parts of an object of so many references and numbers. There are none exactly past the most fields of the rules.
pub fn parts(rules: Rules, references: u32, numbers: u32) -> Option<Parts>
    ensures parts { IfSome result (λ all. all ≡ parts references numbers) }
    ensures none { IsNone result ↔ (most_fields_under rules < references + numbers) }
{
    let most = rules.most_fields();
    if references > most || numbers > most - references {
        return None;
    }
    Some(Parts::new(references, numbers))
}
