//! A law of the definitions: its function has the law for its contract, and does nothing.
ghost use Rattle.track_table.specs.Order.{HoldersGrow};

/// Remembering a key changes the holders of that key alone.
pub fn law_holders_grow()
    ensures { HoldersGrow }
{}
