//! Laws of the definitions. Each function does nothing: its clauses are the laws.

ghost use Rattle.fb_blossoms.specs.Laws.{EvenPathIsSimple, EvenPathIsUnique};

/// What the even path inside a node is as a path of links.
pub fn paths()
    ensures simple { EvenPathIsSimple }
    ensures unique { EvenPathIsUnique }
{}
