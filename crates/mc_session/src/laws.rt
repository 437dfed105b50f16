//! A law about edited documents.

ghost use Rattle.mc_session.specs.Laws.{RoomIsEnough};

/// Where there is room in a well formed document for an edit, the edited tree is well formed.
pub fn edits_with_room_stay_formed()
    ensures { RoomIsEnough }
{}
