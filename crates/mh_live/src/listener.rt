//! Who hears of refused lines: in the program standard error, of which this crate knows nothing.
ghost use Rattle.std.specs.Prelude.{List, [], ◌∷◌, ◌++◌};
ghost use Rattle.mh_script.specs.declared.end.LineRefusal.{LineRefusal};

use mh_script::end::LineRefusal;

/// Hears of the lines that are outside the grammar.
pub trait Listener {
    // it heard of these refusals, in order, and of nothing else
    ghost hears: { Self → List LineRefusal → Self → Type 0 };

    /// Tells it of a line that was refused so, once its answer was written.
    fn refused(&mut self, refusal: &LineRefusal)
        ensures { hears self.old (refusal.now ∷ []) self.new };

    ghost silence: { (listener : Self) → hears listener [] listener };

    ghost onward: { (first mid last : Self) (before : List LineRefusal) (refusal : LineRefusal) → hears first before mid → hears mid (refusal ∷ []) last → hears first (before ++ refusal ∷ []) last };
}
