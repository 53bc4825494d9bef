//! Laws of the definitions: each function has its law for its contract, and does nothing.
ghost use Rattle.expiry.specs.Laws.{OneIndex, RemovalTakesOne, SettingAddsOne};

/// The index of a set of deadlines is one list: two ordered lists with the same members are equal.
pub fn law_one_index()
    ensures { OneIndex }
{}

/// After a deadline was set it is a member, with those that were.
pub fn law_setting_adds_one()
    ensures { SettingAddsOne }
{}

/// After a deadline was taken out, the other members are left.
pub fn law_removal_takes_one()
    ensures { RemovalTakesOne }
{}
