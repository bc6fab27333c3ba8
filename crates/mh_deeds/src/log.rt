//! Deeds in the order in which they were done. Where memory is refused for one, the log says from then on that it isn't
//! whole, until it is cleared.
ghost use Rattle.std.specs.Prelude.{◌≡◌, List, true, [], ◌∷◌, ◌++◌, IfOk};
ghost use Rattle.mh_model.specs.{declared.deed.Deed.Deed, Deeds.Adds};
ghost use Rattle.mh_deeds.specs.{Accounts.empty_log, Logs.Told};

use mh_model::deed::Deed;
use mh_model::memory::NoMemory;
use std::alloc::Global;
use std::marker::Model;

/// What keeps deeds, or none of them.
pub trait Log {
    // It has exactly these deeds.
    ghost has: { List Deed → Self → Type 0 };

    /// Whether it keeps nothing: then it needn't be told.
    fn is_silent(&self) -> bool
        ensures { result ≡ true → (log : Self) (deeds : List Deed) → has deeds log };

    /// Adds a deed.
    fn tell(&mut self, deed: Deed)
        ensures { Told has self.old (deed ∷ []) self.new };
}

/// Keeps nothing.
#[derive(Clone, Copy)]
pub struct NoLog;

impl Log for NoLog {
    ghost has = { λ _ _. Unit {0} };

    fn is_silent(&self) -> bool {
        true
    }

    fn tell(&mut self, _deed: Deed) {}
}

/// Deeds in order. Where memory is refused for one the log isn't whole from then on, and all goes on: a quantum never
/// fails because it tells what it does.
#[derive(Drop)]
pub struct Deeds {
    items: Vec<Deed>,
    is_whole: bool,
}

impl Model for Deeds {
    ghost use Rattle.mh_model.specs.Deeds.{DeedLog};

    ghost Value = { DeedLog };

    ghost view = { λ log. record { deeds = log.items.items; is_whole = log.is_whole } };
}

fn add(items: &mut Vec<Deed>, deed: Deed) -> Result<(), NoMemory>
    ensures { IfOk result (λ added. items.new.items ≡ items.old.items ++ deed ∷ []) }
{
    // As an option, since the borrow checker then finds all types that a deed has within.
    let last = Some(deed);
    if let Some(deed) = last {
        items.push(deed)?;
    }
    Ok(())
}

impl Deeds {
    /// No deed yet. It takes no memory.
    pub fn new(alloc: Global) -> Deeds
        ensures { result ≡ empty_log }
    {
        Deeds {
            items: Vec::new(alloc),
            is_whole: true,
        }
    }

    /// Adds a deed.
    pub fn push(&mut self, deed: Deed)
        ensures { Adds self.old (deed ∷ []) self.new }
    {
        if let Err(NoMemory) = add(&mut self.items, deed) {
            self.is_whole = false;
        }
    }

    /// Forgets all deeds, and keeps their room.
    pub fn clear(&mut self)
        ensures { self.new ≡ empty_log }
    {
        self.items.clear();
        self.is_whole = true;
    }

    pub fn deeds(&self) -> &[Deed]
        ensures { result.now ≡ self.now.deeds }
    {
        self.items.as_slice()
    }

    /// Whether no deed is missing.
    pub fn is_whole(&self) -> bool
        ensures { result ≡ self.now.is_whole }
    {
        self.is_whole
    }
}

impl Log for Deeds {
    ghost use Rattle.mh_deeds.specs.Logs.{Has};

    ghost has = { Has };

    fn is_silent(&self) -> bool {
        false
    }

    fn tell(&mut self, deed: Deed) {
        self.push(deed);
    }
}
