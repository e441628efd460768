//! Rings of links read place by place and by number.

ghost use Rattle.fb_laws.specs.RingReads.{BesideByNumber, NamesAt, RingAt, RoundLength, RoundRead, SecondByNumber, SecondCount, SecondRead, WayByNumber};

/// What code reads of a ring that it has as a table: the elements from a place on and round it, and every second one.
/// The links by which a blossom is opened follow from their numbers.
pub fn ring_reads()
    ensures round { RoundRead }
    ensures second { SecondRead }
    ensures count { SecondCount }
    ensures numbers { SecondByNumber }
    ensures way { WayByNumber }
    ensures length { RoundLength }
    ensures beside { BesideByNumber }
    ensures sets { RingAt }
    ensures names { NamesAt }
{}
