//! Fields as they are added to a line, in words or as members of an object of JSON. No text here has a sign that JSON
//! would escape.
ghost use Rattle.std.specs.{Prelude.{◌≡◌, ◌++◌, decimal, OnOk}, String.string_bytes};
ghost use Rattle.mh_tell_steps.specs.Fields.{At, Flag, Number, Word, field, optional_place};
ghost use Rattle.mh_tell_steps.specs.Lines.{field_text, flag_text, key_text, place_text, quoted};

use itoa::Buffer;
use mh_model::memory::NoMemory;
use mh_model::place::Place;
use mh_orders::steps::StepsForm;

pub fn push_decimal(text: &mut String, number: u128) -> Result<(), NoMemory>
    ensures { OnOk result (string_bytes text.new ≡ string_bytes text.old ++ decimal number) }
{
    text.push_str(Buffer::new().format(number))?;
    Ok(())
}

/// Adds a text between quotation marks.
pub fn push_quoted(text: &mut String, word: &str) -> Result<(), NoMemory>
    ensures { OnOk result (string_bytes text.new ≡ string_bytes text.old ++ quoted word.now) }
{
    text.push_str("\"")?;
    text.push_str(word)?;
    text.push_str("\"")?;
    Ok(())
}

pub(crate) fn push_key(text: &mut String, form: StepsForm, key: &str) -> Result<(), NoMemory>
    ensures { OnOk result (string_bytes text.new ≡ string_bytes text.old ++ key_text form key.now) }
{
    match form {
        StepsForm::Text => {
            text.push_str(" ")?;
            text.push_str(key)?;
            text.push_str(" ")?;
        }
        StepsForm::Json => {
            text.push_str(",")?;
            push_quoted(text, key)?;
            text.push_str(":")?;
        }
    }
    Ok(())
}

pub fn push_number(
    text: &mut String,
    form: StepsForm,
    key: &str,
    number: u128,
) -> Result<(), NoMemory>
    ensures { OnOk result (string_bytes text.new ≡ string_bytes text.old ++ field_text form (field key.now (Number number))) }
{
    push_key(text, form, key)?;
    push_decimal(text, number)
}

pub fn push_word(text: &mut String, form: StepsForm, key: &str, word: &str) -> Result<(), NoMemory>
    ensures { OnOk result (string_bytes text.new ≡ string_bytes text.old ++ field_text form (field key.now (Word word.now))) }
{
    push_key(text, form, key)?;
    match form {
        StepsForm::Text => {
            text.push_str(word)?;
            Ok(())
        }
        StepsForm::Json => push_quoted(text, word),
    }
}

pub(crate) fn push_flag(
    text: &mut String,
    form: StepsForm,
    key: &str,
    flag: bool,
) -> Result<(), NoMemory>
    ensures { OnOk result (string_bytes text.new ≡ string_bytes text.old ++ field_text form (field key.now (Flag flag))) }
{
    push_key(text, form, key)?;
    text.push_str(match (form, flag) {
        (StepsForm::Text, true) => "yes",
        (StepsForm::Text, false) => "no",
        (StepsForm::Json, true) => "true",
        (StepsForm::Json, false) => "false",
    })?;
    Ok(())
}

/// Adds a place as `PAGE.SLOT`.
pub fn push_page_and_slot(text: &mut String, place: Place) -> Result<(), NoMemory>
    ensures { OnOk result (string_bytes text.new ≡ string_bytes text.old ++ place_text place) }
{
    push_decimal(text, place.page() as u128)?;
    text.push_str(".")?;
    push_decimal(text, place.slot() as u128)
}

pub(crate) fn push_place(
    text: &mut String,
    form: StepsForm,
    key: &str,
    place: Place,
) -> Result<(), NoMemory>
    ensures { OnOk result (string_bytes text.new ≡ string_bytes text.old ++ field_text form (field key.now (At place))) }
{
    push_key(text, form, key)?;
    match form {
        StepsForm::Text => push_page_and_slot(text, place),
        StepsForm::Json => {
            text.push_str("\"")?;
            push_page_and_slot(text, place)?;
            text.push_str("\"")?;
            Ok(())
        }
    }
}

pub(crate) fn push_optional_place(
    text: &mut String,
    form: StepsForm,
    key: &str,
    place: Option<Place>,
) -> Result<(), NoMemory>
    ensures { OnOk result (string_bytes text.new ≡ string_bytes text.old ++ field_text form (field key.now (optional_place place))) }
{
    if let Some(place) = place {
        return push_place(text, form, key, place);
    }
    push_key(text, form, key)?;
    text.push_str(match form {
        StepsForm::Text => "none",
        StepsForm::Json => "null",
    })?;
    Ok(())
}
