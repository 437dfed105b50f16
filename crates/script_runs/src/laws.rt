//! Laws about the room that edits need.

ghost use Rattle.script_runs.specs.Room as room;

use edit_script::a_step_is_written_so;

/// The lines of a script add no more bytes to a document than the script has, and what they put in is UTF-8.
pub fn scripts_are_bounded()
    ensures { room.ScriptsAreBounded }
{
    a_step_is_written_so();
}

/// There is room in a document of at most 2^26 bytes for 2^26 bytes more.
pub fn documents_have_room()
    ensures { room.DocumentsHaveRoom }
{}

/// Where there is room for an edit and for further bytes, there is room for those after it.
pub fn edits_leave_room()
    ensures { room.EditsLeaveRoom }
{}
