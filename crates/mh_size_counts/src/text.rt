//! What is written of a size: lines, each a word and a number, or `none`.
ghost use Rattle.std.specs.{Prelude.{◌≡◌, ◌++◌, ◌∷◌, [], OnOk}, String.string_bytes};
ghost use Rattle.mh_model.specs.Bytes.{lines_text};
ghost use Rattle.mh_size_counts.specs.Texts.{optional_line};

use mh_model::memory::NoMemory;
use std::fmt::Write;

/// A text of a size, and whether there is such a size.
#[derive(Debug, Drop)]
pub struct SizeText {
    pub text: String,
    /// One of its numbers is `none`, if not.
    pub is_found: bool,
}

/// Adds a line with a number, or `none`. After an error the text may end with a part of it.
pub(crate) fn push_optional(
    text: &mut String,
    word: &str,
    number: Option<u32>,
) -> Result<(), NoMemory>
    ensures { OnOk result (string_bytes text.new ≡ string_bytes text.old ++ lines_text (optional_line word.now number ∷ [])) }
{
    match number {
        None => writeln!(text, "{word} none")?,
        Some(number) => writeln!(text, "{word} {number}")?,
    }
    Ok(())
}
