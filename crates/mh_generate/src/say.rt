//! Commands, written as in a script, so that plans read like its lines.

use mh_model::command::Command;

pub(crate) fn make(slot: u32, references: u32, numbers: u32) -> Command {
    Command::New {
        slot,
        references,
        numbers,
    }
}

pub(crate) fn get(slot: u32, source: u32, field: u32) -> Command {
    Command::Get {
        slot,
        source,
        field,
    }
}

pub(crate) fn put(slot: u32, field: u32, value: u32) -> Command {
    Command::Put { slot, field, value }
}

pub(crate) fn copy(slot: u32, source: u32) -> Command {
    Command::Copy { slot, source }
}

pub(crate) fn clear(slot: u32) -> Command {
    Command::Clear { slot }
}

pub(crate) fn read(slot: u32, index: u32) -> Command {
    Command::Read { slot, index }
}

pub(crate) fn write(slot: u32, index: u32, number: u64) -> Command {
    Command::Write {
        slot,
        index,
        number,
    }
}

pub(crate) fn same(left: u32, right: u32) -> Command {
    Command::Same { left, right }
}

pub(crate) fn shape(slot: u32) -> Command {
    Command::Shape { slot }
}

pub(crate) fn post(board: u32, slot: u32) -> Command {
    Command::Post { board, slot }
}

pub(crate) fn take(slot: u32, board: u32) -> Command {
    Command::Take { slot, board }
}
