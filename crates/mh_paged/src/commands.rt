//! The commands of sessions. Each of the twelve answers and leaves what the model's step on the pages does, with its
//! barriers and refusals. The heap is full exactly when some part of the object has no place. The nine that write keep
//! each world that is taken as the snapshot of the running cycle (`keeps`); the other three only read the heap.
ghost use Rattle.std.specs.Prelude.{◌≡◌, ◌<◌, OnOk, OnErr};
ghost use Rattle.mh_model.specs.{declared.birth.TheConstants.LIFE, Classes.parts, Deeds.make_deeds};
ghost use Rattle.mh_deeds.specs.Logs.{Told};
ghost use Rattle.mh_laws.specs.{Bounds.CollectorsStayInBounds, Commands.CommandsAreAnswered};
ghost use Rattle.mh_laws.specs.Snapshots.{CollectorsStaySteady, CommandsKeepTheSnapshot, HeapsStayKept};
ghost use Rattle.mh_heap.specs.Outcome.{done_or, number_or, same_or, shape_or};
ghost use Rattle.mh_paged.specs.Kept.{KeepsEachWorld, Steps};
ghost use Rattle.mh_model.specs.declared.command.Command.TheVariants as command;

use crate::kept::{KeptHeap, field_below, parts_of};
use crate::lent::{
    clear_roots, loaded, make_parts, number, place_of, root, write_number, write_reference,
    write_root,
};
use mh_deeds::log::Log;
use mh_heap::slots::{board_slot, own_slot};
use mh_laws::barriers::objects_made_keep_the_snapshot;
use mh_laws::bounds::collectors_stay_in_bounds;
use mh_laws::commands::commands_are_answered;
use mh_laws::fields::{fields_are_found, references_lead_on};
use mh_laws::snapshots::{collectors_stay_steady, commands_keep_the_snapshot, heaps_stay_kept};
use mh_model::birth::Birth;
use mh_model::limits::SESSION_SLOTS;
use mh_model::reply::Refusal;
use mh_model::shape::Shape;

/// The laws of all commands. It does nothing when it runs.
fn laws_of_commands()
    ensures kept { HeapsStayKept }
    ensures bounds { CollectorsStayInBounds }
    ensures steady { CollectorsStaySteady }
    ensures answered { CommandsAreAnswered }
    ensures snapshot { CommandsKeepTheSnapshot }
{
    heaps_stay_kept();
    collectors_stay_in_bounds();
    collectors_stay_steady();
    commands_are_answered();
    commands_keep_the_snapshot();
}

/// Each call is the command of its name by the session `who`, and takes no memory.
impl KeptHeap {
    #[tactic(auto, unfolding(mh_model::specs::Mutator::mutator_step, mh_model::specs::Mutator::heap_effect))]
    pub fn make<L: Log>(
        &mut self,
        who: u8,
        slot: u32,
        references: u32,
        numbers: u32,
        log: &mut L,
    ) -> Result<(), Refusal>
        requires { self.old.next_birth < LIFE }
        ensures step { Steps self.old who (command.New slot references numbers) (done_or result) self.new }
        ensures keeps { KeepsEachWorld self.old self.new }
        ensures told { OnOk result (Told L.has log.old (make_deeds self.old.collector.table self.old.next_birth self.old.collector.cycle 0 (parts references numbers)) log.new) }
        ensures quiet { OnErr result (log.new ≡ log.old) }
    {
        let session = self.session(who)?;
        let slot = own_slot(session, slot)?;
        let all = parts_of(self.cycle.config(), references, numbers)?;
        laws_of_commands();
        objects_made_keep_the_snapshot();
        let shape = Shape {
            references,
            numbers,
        };
        let birth = Birth(self.next_birth);
        match make_parts(&mut self.cycle, &mut self.places, shape, &all, birth, log) {
            Err(_full) => Err(Refusal::HeapFull),
            Ok(place) => {
                write_root(&mut self.cycle, slot, Some(place));
                self.next_birth += 1;
                Ok(())
            }
        }
    }

    #[tactic(auto, unfolding(mh_model::specs::Mutator::mutator_step, mh_model::specs::Mutator::heap_effect))]
    pub fn get(&mut self, who: u8, slot: u32, source: u32, field: u32) -> Result<(), Refusal>
        ensures step { Steps self.old who (command.Get slot source field) (done_or result) self.new }
        ensures keeps { KeepsEachWorld self.old self.new }
    {
        let session = self.session(who)?;
        let slot = own_slot(session, slot)?;
        let source = own_slot(session, source)?;
        let found = self.object_in(source)?;
        let field = field_below(found.shape.references, field)?;
        laws_of_commands();
        fields_are_found();
        references_lead_on();
        let reference = loaded(&self.cycle, found.place, field);
        write_root(&mut self.cycle, slot, reference);
        Ok(())
    }

    #[tactic(auto, unfolding(mh_model::specs::Mutator::mutator_step, mh_model::specs::Mutator::heap_effect))]
    pub fn put(&mut self, who: u8, slot: u32, field: u32, value: u32) -> Result<(), Refusal>
        ensures step { Steps self.old who (command.Put slot field value) (done_or result) self.new }
        ensures keeps { KeepsEachWorld self.old self.new }
    {
        let session = self.session(who)?;
        let slot = own_slot(session, slot)?;
        let value = own_slot(session, value)?;
        let found = self.object_in(slot)?;
        let field = field_below(found.shape.references, field)?;
        laws_of_commands();
        fields_are_found();
        references_lead_on();
        let at = place_of(&self.cycle, found.place, field);
        let reference = root(&self.cycle, value);
        write_reference(&mut self.cycle, at, reference);
        Ok(())
    }

    #[tactic(auto, unfolding(mh_model::specs::Mutator::mutator_step, mh_model::specs::Mutator::heap_effect))]
    pub fn copy(&mut self, who: u8, slot: u32, source: u32) -> Result<(), Refusal>
        ensures step { Steps self.old who (command.Copy slot source) (done_or result) self.new }
        ensures keeps { KeepsEachWorld self.old self.new }
    {
        let session = self.session(who)?;
        let slot = own_slot(session, slot)?;
        let source = own_slot(session, source)?;
        laws_of_commands();
        let reference = root(&self.cycle, source);
        write_root(&mut self.cycle, slot, reference);
        Ok(())
    }

    #[tactic(auto, unfolding(mh_model::specs::Mutator::mutator_step, mh_model::specs::Mutator::heap_effect))]
    pub fn clear(&mut self, who: u8, slot: u32) -> Result<(), Refusal>
        ensures step { Steps self.old who (command.Clear slot) (done_or result) self.new }
        ensures keeps { KeepsEachWorld self.old self.new }
    {
        let session = self.session(who)?;
        let slot = own_slot(session, slot)?;
        laws_of_commands();
        write_root(&mut self.cycle, slot, None);
        Ok(())
    }

    #[tactic(auto, unfolding(mh_model::specs::Mutator::mutator_step, mh_model::specs::Mutator::heap_effect))]
    pub fn read(&self, who: u8, slot: u32, index: u32) -> Result<u64, Refusal>
        ensures { Steps self.now who (command.Read slot index) (number_or result) self.now }
    {
        let session = self.session(who)?;
        let slot = own_slot(session, slot)?;
        let found = self.object_in(slot)?;
        let index = field_below(found.shape.numbers, index)?;
        collectors_stay_steady();
        fields_are_found();
        let field = found.shape.references as usize + index;
        Ok(number(&self.cycle, found.place, field))
    }

    #[tactic(auto, unfolding(mh_model::specs::Mutator::mutator_step, mh_model::specs::Mutator::heap_effect))]
    pub fn write(&mut self, who: u8, slot: u32, index: u32, number: u64) -> Result<(), Refusal>
        ensures step { Steps self.old who (command.Write slot index number) (done_or result) self.new }
        ensures keeps { KeepsEachWorld self.old self.new }
    {
        let session = self.session(who)?;
        let slot = own_slot(session, slot)?;
        let found = self.object_in(slot)?;
        let index = field_below(found.shape.numbers, index)?;
        laws_of_commands();
        fields_are_found();
        let field = found.shape.references as usize + index;
        write_number(&mut self.cycle, found.place, field, number);
        Ok(())
    }

    #[tactic(auto, unfolding(mh_model::specs::Mutator::mutator_step, mh_model::specs::Mutator::heap_effect))]
    pub fn same(&self, who: u8, left: u32, right: u32) -> Result<bool, Refusal>
        ensures { Steps self.now who (command.Same left right) (same_or result) self.now }
    {
        let session = self.session(who)?;
        let left = own_slot(session, left)?;
        let right = own_slot(session, right)?;
        Ok(root(&self.cycle, left) == root(&self.cycle, right))
    }

    #[tactic(auto, unfolding(mh_model::specs::Mutator::mutator_step, mh_model::specs::Mutator::heap_effect))]
    pub fn shape(&self, who: u8, slot: u32) -> Result<Shape, Refusal>
        ensures { Steps self.now who (command.Shape slot) (shape_or result) self.now }
    {
        let session = self.session(who)?;
        let slot = own_slot(session, slot)?;
        Ok(self.object_in(slot)?.shape)
    }

    #[tactic(auto, unfolding(mh_model::specs::Mutator::mutator_step, mh_model::specs::Mutator::heap_effect))]
    pub fn post(&mut self, who: u8, board: u32, slot: u32) -> Result<(), Refusal>
        ensures step { Steps self.old who (command.Post board slot) (done_or result) self.new }
        ensures keeps { KeepsEachWorld self.old self.new }
    {
        let session = self.session(who)?;
        let board = board_slot(board)?;
        let slot = own_slot(session, slot)?;
        laws_of_commands();
        let reference = root(&self.cycle, slot);
        write_root(&mut self.cycle, board, reference);
        Ok(())
    }

    #[tactic(auto, unfolding(mh_model::specs::Mutator::mutator_step, mh_model::specs::Mutator::heap_effect))]
    pub fn take(&mut self, who: u8, slot: u32, board: u32) -> Result<(), Refusal>
        ensures step { Steps self.old who (command.Take slot board) (done_or result) self.new }
        ensures keeps { KeepsEachWorld self.old self.new }
    {
        let session = self.session(who)?;
        let slot = own_slot(session, slot)?;
        let board = board_slot(board)?;
        laws_of_commands();
        let reference = root(&self.cycle, board);
        write_root(&mut self.cycle, slot, reference);
        Ok(())
    }

    #[tactic(auto, unfolding(mh_model::specs::Mutator::mutator_step))]
    pub fn end(&mut self, who: u8) -> Result<(), Refusal>
        ensures step { Steps self.old who command.End (done_or result) self.new }
        ensures keeps { KeepsEachWorld self.old self.new }
    {
        let session = self.session(who)?;
        laws_of_commands();
        clear_roots(&mut self.cycle, session * SESSION_SLOTS);
        self.ended[session] = true;
        Ok(())
    }
}
