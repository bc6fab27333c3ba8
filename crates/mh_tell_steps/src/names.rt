//! The names that a script has for its sessions, where it doesn't call them `s0` to `s7`.
//!
//! Events are named as in histories, by `s0` to `s8`, since an event knows the number of its session and not its
//! name. A name that the script has instead stands once, at the head.
ghost use Rattle.std.specs.Prelude.{◌≡◌, ◌++◌, OnOk};
ghost use Rattle.mh_tell_steps.specs.Names.{name_line, name_text, names_text, session_word};
ghost use Rattle.mh_text.specs.Names.{names_shown};

use arrayvec::ArrayString;
use itoa::Buffer;
use mh_model::memory::NoMemory;
use mh_orders::steps::StepsForm;
use mh_text::word::is_word;

/// The most bytes of the word of a session.
const WORD_BYTES: usize = 24;

fn session_word(number: u64) -> ArrayString<WORD_BYTES>
    ensures { result.bytes ≡ session_word number }
{
    let mut word = ArrayString::new();
    word.push_str("s");
    word.push_str(Buffer::new().format(number));
    word
}

/// Adds a word and a name with what stands around them.
fn push_around(
    text: &mut Vec<u8>,
    head: &[u8],
    word: &[u8],
    between: &[u8],
    name: &[u8],
    end: &[u8],
) -> Result<(), NoMemory>
    ensures { OnOk result (text.new.items ≡ text.old.items ++ (head.now ++ (word.now ++ (between.now ++ (name.now ++ end.now))))) }
{
    text.extend_from_slice(head)?;
    text.extend_from_slice(word)?;
    text.extend_from_slice(between)?;
    text.extend_from_slice(name)?;
    text.extend_from_slice(end)?;
    Ok(())
}

fn push_line(text: &mut Vec<u8>, form: StepsForm, word: &[u8], name: &[u8]) -> Result<(), NoMemory>
    ensures { OnOk result (text.new.items ≡ text.old.items ++ name_line form word.now name.now) }
{
    match form {
        StepsForm::Text => push_around(text, b"session ", word, b" is ", name, b"\n"),
        StepsForm::Json => push_around(
            text,
            b"{\"session\":\"",
            word,
            b"\",\"name\":\"",
            name,
            b"\"}\n",
        ),
    }
}

/// Adds the line of a session's name, unless it is the word that steps have for the session.
fn push_name(text: &mut Vec<u8>, form: StepsForm, number: u64, name: &[u8]) -> Result<(), NoMemory>
    ensures { OnOk result (text.new.items ≡ text.old.items ++ name_text form number name.now) }
{
    let word = session_word(number);
    let word = word.as_str().as_bytes();
    if is_word(name, word) {
        return Ok(());
    }
    push_line(text, form, word, name)
}

/// Adds a line for each of these names of sessions that isn't the word that steps have for it.
pub(crate) fn push_names(
    text: &mut Vec<u8>,
    form: StepsForm,
    names: &[&[u8]],
) -> Result<(), NoMemory>
    ensures { OnOk result (text.new.items ≡ text.old.items ++ names_text form 0 (names_shown names.now)) }
{
    for (number, name) in names.iter().enumerate() {
        push_name(text, form, number as u64, name)?;
    }
    Ok(())
}
