//! Laws of the definitions: each function has its law for its contract, and does nothing.
ghost use Rattle.command_set.specs.Laws.{NothingIsInStep, OneIndexIsInStep, RowsMoveWhatTheyWrite};

/// No deadlines are in step with no keys.
pub fn law_nothing_is_in_step()
    ensures { NothingIsInStep }
{}

/// One index is in step with a keyspace.
pub fn law_one_index_is_in_step()
    ensures { OneIndexIsInStep }
{}

/// A command changes the keys that it writes alone, and a deadline of a key after it is one that
/// the key had before, or the one that the command gives.
pub fn law_rows_move_what_they_write()
    ensures { RowsMoveWhatTheyWrite }
{}
