//! Where the slots of sessions and of the board stand among the root slots: the root slot, or the refusal of a bad
//! number.
ghost use Rattle.std.specs.Prelude.{◌≡◌, ◌<◌, [], ◌∷◌, IfOk};
ghost use Rattle.mh_model.specs.{World.{is_bad, own_slot, board_slot}, declared.reply.Refusal.TheVariants.BadSlot};
ghost use Rattle.mh_model.specs.Limits.{root_slots};
ghost use Rattle.mh_heap.specs.Checks.{tested};

use mh_model::limits::{SESSION_SLOTS, SESSIONS};
use mh_model::reply::Refusal;

/// The root slot of a session's slot.
pub fn own_slot(session: usize, slot: u32) -> Result<usize, Refusal>
    requires { session < 8 }
    ensures step { result ≡ tested ((is_bad slot, BadSlot) ∷ []) (own_slot session slot) }
    ensures within { IfOk result (λ root. root < 128) }
{
    let slot = slot as usize;
    if slot >= SESSION_SLOTS {
        return Err(Refusal::BadSlot);
    }
    Ok(session * SESSION_SLOTS + slot)
}

/// The root slot of a slot of the board, after those of the sessions.
pub fn board_slot(board: u32) -> Result<usize, Refusal>
    ensures step { result ≡ tested ((is_bad board, BadSlot) ∷ []) (board_slot board) }
    ensures within { IfOk result (λ root. root < root_slots) }
{
    let board = board as usize;
    if board >= SESSION_SLOTS {
        return Err(Refusal::BadSlot);
    }
    Ok(SESSIONS * SESSION_SLOTS + board)
}
