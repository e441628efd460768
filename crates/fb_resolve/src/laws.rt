//! What follows from the definitions alone. Each function does nothing: its clause is the law.

ghost use Rattle.fb_resolve.specs.Openings.{OpenedByNumber};
ghost use Rattle.fb_resolve.specs.Rows.{RootIsRight};

/// The numbers of the links of a part with all its blossoms opened are those of the links that solve it.
pub fn opened_by_number()
    ensures { OpenedByNumber }
{}

/// The edges and the cuts of a solved root are the right row of its shot.
pub fn root_is_right()
    ensures { RootIsRight }
{}
