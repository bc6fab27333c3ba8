//! The sessions that were named, in the order of their numbers. One that comes too early gives way to the next that
//! isn't named yet. So a session has its number in its name, and a script's text is one function of its events.
ghost use Rattle.std.specs.Prelude.{◌≡◌, ◌+◌, ◌<◌, ◌≤◌, suc, nat_lt, nat_le, ◌||◌, if◌then◌else◌};

use mh_model::limits::SESSIONS;

/// How many names are distinguished.
const NAMES: u8 = SESSIONS as u8;

/// How many sessions were named, and how many may be.
#[derive(Clone, Copy)]
pub(crate) struct Names {
    pub(crate) named: u8,
    pub(crate) most: u8,
    pub(crate) ghost some: { 0 < most },
    pub(crate) ghost few: { most ≤ 9 },
    pub(crate) ghost seen: { named ≤ 8 },
}

impl Names {
    pub(crate) fn new(most: u8) -> Names
        requires { (0 < most) × (most ≤ 9) }
        ensures none { result.named ≡ 0 }
        ensures most { result.most ≡ most }
    {
        Names { named: 0, most }
    }

    /// The session that is wished for, or one before it that was named, or is the next.
    pub(crate) fn nearest(&self, wished: u8) -> u8
        ensures next { result ≤ self.now.named }
        ensures below { result < self.now.most }
    {
        wished.min(self.named).min(self.most - 1)
    }

    /// Notes that a session has a command.
    pub(crate) fn note(&mut self, who: u8)
        ensures named { self.new.named ≡ (if nat_lt who self.old.named || nat_le 8 self.old.named then self.old.named else suc self.old.named) }
        ensures most { self.new.most ≡ self.old.most }
    {
        if who >= self.named && self.named < NAMES {
            self.named += 1;
        }
    }
}
