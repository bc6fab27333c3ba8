//! The names that a script has for its sessions. The page has those of the first eight, also where they are `s0` to
//! `s7`, so that a number finds its name by its place.
ghost use Rattle.std.specs.Prelude.{◌≡◌, ◌≤◌, ◌++◌, codes, IfOk, OnOk, length};
ghost use Rattle.mh_tell_show.specs.Page.{names_part};
ghost use Rattle.mh_tell_steps.specs.Lines.{quoted};
ghost use Rattle.mh_text.specs.Names.{names_in, names_shown};

use mh_model::memory::NoMemory;
use mh_text::names::names_in;
use mh_text::script::SCRIPT_BYTES;
use std::alloc::Global;

fn push_name(text: &mut Vec<u8>, name: &[u8]) -> Result<(), NoMemory>
    ensures { OnOk result (text.new.items ≡ text.old.items ++ (quoted name.now ++ codes ",")) }
{
    text.extend_from_slice(b"\"")?;
    text.extend_from_slice(name)?;
    text.extend_from_slice(b"\",")?;
    Ok(())
}

fn names_part(alloc: Global, names: &[&[u8]]) -> Result<Vec<u8>, NoMemory>
    ensures { IfOk result (λ text. text.items ≡ names_part (names_shown names.now)) }
{
    let mut text = Vec::new(alloc);
    text.extend_from_slice(b"{\"names\":[")?;
    for name in names {
        push_name(&mut text, name)?;
    }
    text.extend_from_slice(b"0],")?;
    Ok(text)
}

/// The names of the first eight sessions of a script, and how the object begins that has the numbers of its run.
pub(crate) fn names_text(alloc: Global, script: &[u8]) -> Result<Vec<u8>, NoMemory>
    requires { length script.now ≤ SCRIPT_BYTES }
    ensures { IfOk result (λ text. text.items ≡ names_part (names_in script.now)) }
{
    let names = names_in(alloc, script)?;
    names_part(alloc, names.as_slice())
}
