//! Hooks: where a worker or a session can be held before it goes on. The trait and the hook that holds nobody stand
//! beside the crew, which calls them. The claims don't call them.

/// What a worker and a session call before they go on. A hook that waits holds them there.
pub trait Gate {
    /// A worker is about to scan a piece that it drew.
    fn piece(&self, worker: usize, piece: u64);

    /// A session is about to make its first call.
    fn session(&self, who: u8);
}

/// The hook that holds nobody.
#[derive(Clone, Copy, Drop)]
pub struct Open;

impl Gate for Open {
    fn piece(&self, _worker: usize, _piece: u64) {}

    fn session(&self, _who: u8) {}
}
