//! Laws of what commands find: objects in slots, their fields, and what references lead to.
ghost use Rattle.mh_laws.specs.Fields.{SlotsHoldObjects, FieldsAreFound, ReferencesLeadOn};

/// A slot holds the place of an object, whose shape is the one that is seen there.
pub fn slots_hold_objects()
    ensures { SlotsHoldObjects }
{}

/// Each field of an object is found in a block that has it, and the references on the way lead to blocks.
pub fn fields_are_found()
    ensures { FieldsAreFound }
{}

/// References lead to blocks that are no forwarders, and those of slots and fields to objects.
pub fn references_lead_on()
    ensures { ReferencesLeadOn }
{}
