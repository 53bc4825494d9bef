//! What totals are, told from the outside: the function is a law, and does nothing.
ghost use Rattle.conn_pool.specs.EndTotals.{AddUp};

/// The totals of all ways to end add up to the number of reports and to all their requests, where
/// these have 64 bits.
pub fn law_totals_add_up()
    ensures { AddUp }
{}
