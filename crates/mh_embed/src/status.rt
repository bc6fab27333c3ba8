//! What a call came to, and the number by which C knows it.
ghost use Rattle.std.specs.Prelude.{◌≡◌};
ghost use Rattle.mh_embed.specs.Statuses.{code_of};

/// What a call came to.
#[derive(Clone, Copy, Debug, PartialEq, Eq)]
pub enum Status {
    Done,
    /// The line is empty or a comment.
    Blank,
    /// The line is outside the grammar, or the numbers are of no event.
    Wrong,
    /// The machine has done as many events as it may.
    Full,
    /// Memory was refused, and nothing was done.
    NoMemory,
    /// The handle has no machine.
    Closed,
    /// The numbers are of no configuration.
    BadConfig,
    /// The text of the reply is longer than the buffer.
    Short,
    /// Memory was refused for the text of the reply.
    NoText,
    /// No event was done yet.
    NoReply,
    /// There is no item or deed of this index, or no reason.
    NoItem,
    /// The deeds of the last event weren't kept, or memory was refused for one.
    NoDeeds,
    /// The reply that was judged isn't right.
    Differs,
    /// The handle has a world, which has no collector and no trace.
    IsWorld,
}

impl Status {
    /// The number that C sees.
    pub fn code(self) -> i32
        ensures { result ≡ code_of self }
    {
        match self {
            Status::Done => 0,
            Status::Blank => 1,
            Status::Wrong => 2,
            Status::Full => 3,
            Status::NoMemory => 4,
            Status::Closed => 5,
            Status::BadConfig => 6,
            Status::Short => 7,
            Status::NoText => 8,
            Status::NoReply => 9,
            Status::NoItem => 10,
            Status::NoDeeds => 11,
            Status::Differs => 12,
            Status::IsWorld => 13,
        }
    }
}
