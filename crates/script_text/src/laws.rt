//! Laws of the definitions, which hold of all texts.
ghost use Rattle.script_text.specs.Grammar.{EventsComeBack, LinesComeBack};
ghost use Rattle.script_text.specs.Scripts.{ScriptLinesComeBack, ScriptLinesAreValid};
ghost use Rattle.script_text.specs.Storm.{StepsBeginOnce, StormsAreValid, StormsGrow};
ghost use Rattle.script_text.specs.Valid.{EventsAreValid};
ghost use Rattle.script_text.specs.Words.{WordsComeBack};

/// A text is read as a word exactly where it is what is printed of that word: each word comes
/// back, and has one spelling.
pub fn law_words_come_back()
    ensures { WordsComeBack }
{}

/// A line is read as an event exactly where the event is valid and the line is that event's: its
/// parts joined by single spaces. So each valid event has one line, save that the name of a query
/// is read in any case, and no other line has an event.
pub fn law_lines_come_back()
    ensures { LinesComeBack }
{}

/// The line of a valid event is read as that event.
pub fn law_events_come_back()
    ensures { EventsComeBack }
{}

/// Each line that has an event has a valid one: what a client may hold has its bounds, the words of
/// an Ask read as the query, and a command has a word.
pub fn law_events_are_valid()
    ensures { EventsAreValid }
{}

/// A text is read as a line of a script exactly where the line is valid, the text is not too long,
/// and it is that line's: its parts joined by single spaces. The name of a query is read in any
/// case.
pub fn law_script_lines_come_back()
    ensures { ScriptLinesComeBack }
{}

/// Each line of a script has a thread, and a query that its words read as, or a command that the
/// client may send.
pub fn law_script_lines_are_valid()
    ensures { ScriptLinesAreValid }
{}

/// Each event of a storm is valid, so that its line is read as it and a world can play it.
pub fn law_storms_are_valid()
    ensures { StormsAreValid }
{}

/// A storm with more steps begins with the events of that with fewer.
pub fn law_storms_grow()
    ensures { StormsGrow }
{}

/// A storm has the 7 events of its opening and then those of each step, of which it has as many as
/// were asked for.
pub fn law_steps_begin_once()
    ensures { StepsBeginOnce }
{}
