//! What holds of every history that the machine allows, and of the nodes of a plan. Each function does nothing: its clauses are the law.

ghost use Rattle.fb_book.specs.Laws.{ItemsAreForest, RenumberingAllows, RenumberingCompletes, Progress, TraceGivesStatus, TwoEach, TakenAndGiven, TakenAndGivenOn, CompleteOnSlots, ChildrenBefore, UsedByParent, DoneIsComplete, FusionIsMadeLast, UnitIsMadeAlone};

/// The items of a plan are a forest, as the laws on histories ask. A job's plan is a tree: `Job::keeps` says so.
pub fn items_of_plan()
    ensures { ItemsAreForest }
{}

/// In which order the nodes of a subtree are made: a unit is made alone, and a fusion after all of its left child and then
/// all of its right child.
pub fn order_of_nodes()
    ensures unit { UnitIsMadeAlone }
    ensures fusion { FusionIsMadeLast }
{}

/// If nothing is held or left, some item can be taken, or every item is given or used. Of the used ones each is a
/// child of one that was taken.
pub fn progress()
    ensures progress { Progress }
    ensures used { UsedByParent }
{}

/// What was done with an item determines its status, and no item has more than two entries.
pub fn entries_of_item()
    ensures status { TraceGivesStatus }
    ensures two { TwoEach }
{}

/// A history at whose end every item is given or used is complete. Of a complete history each item was taken once and
/// given once, by the same worker and in this order; so too of the items of some slots, if it is complete on those.
/// Of every history, both children of a fusion were given before it was taken.
pub fn complete_history()
    ensures done { DoneIsComplete }
    ensures both { TakenAndGiven }
    ensures slots { CompleteOnSlots }
    ensures both_on { TakenAndGivenOn }
    ensures children { ChildrenBefore }
{}

/// Slots may be renumbered, rising, as when a window's shots have places of their own: the history stays allowed, each
/// item keeps its status, and what is complete on some slots is complete on their new numbers.
pub fn renumbered_slots()
    ensures allowed { RenumberingAllows }
    ensures complete { RenumberingCompletes }
{}
