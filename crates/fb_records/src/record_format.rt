//! What a format of shots gives to the reader of its records.

ghost use Rattle.std.specs.Prelude.{◌≡◌, ℕ, ◌≤◌, List, [], ◌++◌, length, drop, IfOk, IfErr, OnErr};
ghost use Rattle.fb_records.specs.Records.{Records};
ghost use Rattle.fb_records.specs.Steps.{AnswersRest, IfFound, IfRefused, answer_at, used_of};
ghost use Rattle.fb_records.specs.declared.answer.Next.TheVariants as next;

use crate::answer::{Found, Stop};
use std::alloc::Global;

/// A format, with what its shots are of: a number of detectors, or a graph. Contracts see what they are of.
pub trait RecordFormat: Drop {
    /// What the shots are of, as a caller gives it.
    type Subject;

    /// What a reader keeps of a record begun.
    type Begun: Drop;

    /// A shot as the format gives it.
    type Shot: Drop;

    /// Why a record is refused.
    type Kind;

    ghost subject_of: { Self.Subject → Self };

    /// What a whole input holds.
    ghost records: { Self → List ℕ → Records Self.Shot Self.Kind };

    /// What is settled by a prefix of an input.
    ghost prefix: { Self → List ℕ → Records Self.Shot Self.Kind };

    /// What is left of an input without its first record.
    ghost after: { Self → List ℕ → List ℕ };

    /// What every shot keeps.
    ghost IsShot: { Self → Self.Shot → Type 0 };

    /// What is known of some bytes when this is kept of them.
    ghost IsBegun: { Self → Self.Begun → List ℕ → Type 0 };

    fn new(alloc: Global, subject: Self::Subject) -> Self
        ensures { result ≡ subject_of subject };

    /// What is kept before any byte.
    fn start(&self) -> Self::Begun
        ensures { IsBegun self.now result [] };

    /// Goes on from where a record is begun, to its end or the end of the bytes.
    fn advance(
        &self,
        begun: &mut Self::Begun,
        rest: &[u8],
        finished: bool,
    ) -> Result<Found<Self::Shot>, Stop<Self::Kind>>
        requires { IsBegun self.now begun.old rest.now }
        ensures ok { IfOk result (λ found. AnswersRest records prefix after self.now rest.now finished
            (drop (used_of found) rest.now) (answer_at found)) }
        ensures used { IfOk result (λ found. used_of found ≤ length rest.now) }
        ensures shot { IfOk result (IfFound (IsShot self.now)) }
        ensures begun { IfOk result (λ found. IsBegun self.now begun.new (drop (used_of found) rest.now)) }
        ensures refused { IfErr result (IfRefused (λ kind. AnswersRest records prefix after self.now rest.now finished
            rest.now (next.Refused kind))) }
        ensures err { OnErr result (IsBegun self.now begun.new rest.now) };

    /// What is known of a record begun stays known when more bytes follow.
    ghost grows: { (f : Self) (begun : Self.Begun) (bytes more : List ℕ)
        → IsBegun f begun bytes → IsBegun f begun (bytes ++ more) };
}
