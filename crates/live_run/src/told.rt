//! The line that tells why a session stopped.

ghost use Rattle.mc_run.specs.Told.{Tells};
ghost use Rattle.live_run.specs.Told.{session_line, session_usage};

use mc_base::Sink;
use mc_run::{Stop, tell};

/// The words of the program.
const USAGE: &[u8] = b"usage: mcol_live DOC SHEET METRICS WIDTH HEIGHT SCRIPT\n";

/// Puts the line of words that aren't taken.
#[tactic(auto, unfolding(crate::specs::Told::session_usage))]
fn tell_usage<E: Sink>(err: &mut E)
    ensures { Tells (E.written err.old) (E.written err.new) (E.faults err.old) (E.faults err.new) session_usage }
{
    let _put = err.put(USAGE);
}

/// Puts the line that tells why a session stopped. Where that fails, a first part of it was put.
pub fn tell_session<E: Sink>(err: &mut E, stop: Stop)
    ensures { Tells (E.written err.old) (E.written err.new) (E.faults err.old) (E.faults err.new) (session_line stop) }
{
    match stop {
        Stop::Usage => tell_usage(err),
        Stop::Read { .. } | Stop::Write | Stop::Refused { .. } => tell(err, stop),
    }
}
