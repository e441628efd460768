//! The defects of a dual state: one more, and those of the problem exchanged.

ghost use Rattle.fb_graph.specs.NewLeaves.{NestLeafAdded, WalksLeafAdded};
ghost use Rattle.fb_laws.specs.ExchangedDefects.{DualExchanged, NestExchanged, WalksExchanged};

/// An uncovered real vertex as a node of its own, of value 0 and with a name that no node has, keeps the dual state and
/// its source walks.
pub fn leaf_added()
    ensures nest { NestLeafAdded }
    ensures walks { WalksLeafAdded }
{}

/// The dual state of a problem is that of the same problem with other defects, and the other way round.
pub fn defects_exchanged()
    ensures dual { DualExchanged }
    ensures nest { NestExchanged }
    ensures walks { WalksExchanged }
{}
