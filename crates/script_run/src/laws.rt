//! What holds of a session. The function's contract is the law; it has no work to do.
ghost use Rattle.script_run.specs.Complete.{SoundSessionsAnswer};
ghost use Rattle.script_run.specs.Session.{LinesAreAnswered};

/// Where no pump has ended a link, each line is answered by a hit or an answer, or finds no
/// memory, a full log or no ticket.
pub fn law_lines_are_answered()
    ensures { LinesAreAnswered }
{}

/// Where neither link ended by itself, the log has room and a ticket is left, each line has its
/// value and the session ends as done, or memory ran out.
pub fn law_sound_sessions_are_answered()
    ensures { SoundSessionsAnswer }
{}
