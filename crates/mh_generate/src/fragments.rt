//! Objects of all classes, of which few are kept, so that pages become sparse: the profile `frag`.

use crate::plan::Plan;
use crate::random::Random;
use crate::say::{get, make, put, read, shape, write};
use crate::session::Session;
use mh_model::command::Command;

/// The slot of the table that keeps objects.
const TABLE: u32 = 0;

const OBJECT: u32 = 1;

const KEPT: u32 = 2;

/// A new object with so many fields.
fn object(fields: u32, random: &mut Random) -> Command {
    let references = random.below(fields.saturating_add(1));
    make(OBJECT, references, fields.saturating_sub(references))
}

/// Objects of which a table of so many entries keeps two, in the place of others.
fn litter(fields: u32, entries: u32, random: &mut Random) -> Plan {
    Plan::of(&[
        object(fields, random),
        object(fields, random),
        put(TABLE, random.below(entries.max(1)), OBJECT),
        object(fields, random),
        object(fields, random),
        put(TABLE, random.below(entries.max(1)), OBJECT),
        object(fields, random),
    ])
}

/// One that is kept is looked at and written to.
fn touch(entries: u32, random: &mut Random) -> Plan {
    let entry = random.below(entries.max(1));
    let number = random.wide();
    Plan::of(&[
        get(KEPT, TABLE, entry),
        read(KEPT, 0),
        write(KEPT, 0, number),
        put(KEPT, 0, OBJECT),
        shape(KEPT),
    ])
}

/// The plan of a session whose table is to have so many entries, while objects have so many fields as a rule.
pub(crate) fn plan(session: &Session, entries: u32, fields: u32, random: &mut Random) -> Plan {
    if session.shape(TABLE).references < entries || random.chance(1, 1_000) {
        return Plan::of(&[make(TABLE, entries, 0)]);
    }
    match random.below(20) {
        0..=3 => litter(fields, entries, random),
        4..=5 => {
            let other = random.below(61);
            litter(other, entries, random)
        }
        _ => touch(entries, random),
    }
}
