ghost use Rattle.std.specs.Prelude.{◌≡◌, ℕ, ◌<◌, Option, List, [], length, map, OnOk, OnErr, IfOk, IsOk};
ghost use Rattle.fb_ports.specs.Causes.{HasCause, AppendsPrefix, WritesAtMost, WriteAppends, Appends, concat};

use crate::Failed;

/// Something that takes bytes, as standard output does.
///
/// The clauses speak of two meanings. `taken`, the bytes taken so far, is `None` of a sink that
/// doesn't report them. `faults` counts the faults, and never falls.
pub trait Sink {
    ghost taken: { Self → Option (List ℕ) };

    ghost faults: { Self → ℕ };

    /// Takes a prefix of `piece`, and returns its length in bytes: at least 1 if the piece is
    /// not empty. A failed put took nothing. A put of an empty piece takes nothing and is Ok.
    fn put(&mut self, piece: &[u8]) -> Result<usize, Failed>
        ensures bound { WritesAtMost result piece.now }
        ensures some { 0 < length piece.now → IfOk result (λ n. 0 < n) }
        ensures nothing { piece.now ≡ [] → IsOk result }
        ensures bytes { WriteAppends (taken self.old) (taken self.new) result piece.now }
        ensures cause { HasCause (faults self.old) (faults self.new) result };
}

/// Puts the whole piece, by as many puts as it takes. After a failure the sink has taken a prefix
/// of the piece.
#[tactic(auto, using(crate::proofs::Onward::onward))]
pub fn put_all<S: Sink>(sink: &mut S, piece: &[u8]) -> Result<(), Failed>
    ensures all { OnOk result (Appends (S.taken sink.old) (S.taken sink.new) piece.now) }
    ensures prefix { OnErr result (AppendsPrefix (S.taken sink.old) (S.taken sink.new) piece.now) }
    ensures nothing { piece.now ≡ [] → IsOk result }
    ensures cause { HasCause (S.faults sink.old) (S.faults sink.new) result }
{
    let mut at = 0;
    while at < piece.len() {
        let Ok(count) = sink.put(&piece[at..]) else {
            return Err(Failed);
        };
        at += count;
    }
    Ok(())
}

/// Puts the parts whole, one after another. After a failure the sink has taken a prefix of all
/// that they hold together.
pub fn put_parts<S: Sink>(sink: &mut S, parts: &[&[u8]]) -> Result<(), Failed>
    ensures all { OnOk result (Appends (S.taken sink.old) (S.taken sink.new) (concat (map (λ p. p.now) parts.now))) }
    ensures prefix { OnErr result (AppendsPrefix (S.taken sink.old) (S.taken sink.new)
        (concat (map (λ p. p.now) parts.now))) }
    ensures cause { HasCause (S.faults sink.old) (S.faults sink.new) result }
{
    for part in parts {
        let Ok(()) = put_all(sink, part) else {
            return Err(Failed);
        };
    }
    Ok(())
}
