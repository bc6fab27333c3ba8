//! Lines of scripts as they are written. An event is written as in a history, so a session is named by its number.
ghost use Rattle.std.specs.{Prelude.{◌≡◌, ◌++◌, ◌∷◌, OnOk, decimal, map}, String.string_bytes};
ghost use Rattle.mh_model.specs.Bytes.{joined, line_text};
ghost use Rattle.mh_generate.specs.Auxiliary.{config_line, event_line};

use itoa::Buffer;
use mh_history::measured_line::push_event;
use mh_model::command::Event;
use mh_model::config::Config;
use mh_model::memory::NoMemory;

/// Adds a word, and the numbers after it.
#[tactic(auto, using(crate::proofs::LineLemmas::words_more))]
fn push_words(text: &mut String, verb: &str, numbers: &[u64]) -> Result<(), NoMemory>
    ensures { OnOk result (string_bytes text.new ≡ string_bytes text.old ++ joined (verb.now ∷ map decimal numbers.now)) }
{
    text.push_str(verb)?;
    for number in numbers {
        text.push_str(" ")?;
        text.push_str(Buffer::new().format(*number))?;
    }
    Ok(())
}

/// Adds the line of an event. After an error the text may end with a part of the line.
pub(crate) fn push_event_line(text: &mut String, event: Event) -> Result<(), NoMemory>
    ensures { OnOk result (string_bytes text.new ≡ string_bytes text.old ++ line_text (event_line event)) }
{
    push_event(text, event)?;
    text.push_str("\n")?;
    Ok(())
}

/// Adds the line of a configuration. After an error the text may end with a part of the line.
pub(crate) fn push_config_line(text: &mut String, config: Config) -> Result<(), NoMemory>
    ensures { OnOk result (string_bytes text.new ≡ string_bytes text.old ++ line_text (config_line config)) }
{
    let numbers = [
        config.pages.into(),
        config.quantum.into(),
        config.trigger.into(),
        config.every.into(),
    ];
    push_words(text, "config", &numbers)?;
    text.push_str("\n")?;
    Ok(())
}
