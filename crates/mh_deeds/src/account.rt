//! What one event did: the deeds of its command and those of the quantum that it ran. It is whole if both logs are.
ghost use Rattle.std.specs.Prelude.{◌≡◌};
ghost use Rattle.mh_deeds.specs.Accounts.{empty_account, is_whole};

use crate::log::Deeds;
use mh_model::deed::QuantumEnd;
use std::alloc::Global;

/// The deeds of an event: those of its command, and those of the quantum that it ran, if it ran one.
#[derive(Drop)]
pub struct Account {
    pub command: Deeds,
    pub quantum: Option<QuantumEnd>,
    pub ran: Deeds,
}

impl Account {
    /// The account of an event that does nothing. It takes no memory.
    pub fn new(alloc: Global) -> Account
        ensures { result ≡ empty_account }
    {
        Account {
            command: Deeds::new(alloc),
            quantum: None,
            ran: Deeds::new(alloc),
        }
    }

    /// Forgets all deeds, and keeps their room.
    pub fn clear(&mut self)
        ensures { self.new ≡ empty_account }
    {
        self.command.clear();
        self.quantum = None;
        self.ran.clear();
    }

    /// Whether no deed is missing.
    pub fn is_whole(&self) -> bool
        ensures { result ≡ is_whole self.now }
    {
        self.command.is_whole() && self.ran.is_whole()
    }
}
