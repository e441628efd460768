ghost use Rattle.std.specs.Prelude.{◌≡◌, ℕ, ◌+◌, ◌^◌, ◌<◌, ◌≤◌, Option, List, length, vec_len, string_bytes, OnOk, IfOk, IfSome, IsErrOf};
ghost use Rattle.fb_ports.specs.Causes.{HasCause, HasRoom, GainsIfKnown, Opens, ReadsAtMost, ReadConsumes, ConsumesAtMost, IsAtEnd, CountsFault};

use crate::Failed;
use std::alloc::Global;

/// Files that are opened by name and read one at a time.
///
/// The clauses speak of four meanings. `named` (the bytes by name), `left` (what is left of the
/// current file) and `asked` (the names that `open_file` was asked for, oldest first) are `None` of
/// files that don't report them. `faults` counts the faults, and never falls.
pub trait Files {
    ghost named: { Self → Option (List ℕ → Option (List ℕ)) };

    ghost left: { Self → Option (List ℕ) };

    ghost asked: { Self → Option (List (List ℕ)) };

    ghost faults: { Self → ℕ };

    /// Makes the named file current, with all of its bytes left. An absent name is a fault. After a
    /// failure nothing is left. The name is added to those asked for, also after a failure.
    fn open_file(&mut self, name: String) -> Result<(), Failed>
        requires { HasRoom (asked self.old) 16 }
        ensures asks { GainsIfKnown (asked self.old) (asked self.new) (string_bytes name) }
        ensures names { named self.new ≡ named self.old }
        ensures opens { Opens (named self.old) (left self.new) (string_bytes name) result }
        ensures cause { HasCause (faults self.old) (faults self.new) result };

    /// Reads bytes of the current file into the start of `buf`, and returns how many. Into a buffer
    /// that is not empty it reads at least one if any is left, so there 0 is the file's end. A
    /// failed read leaves what is left as it was.
    fn read(&mut self, buf: &mut [u8]) -> Result<usize, Failed>
        ensures asks { asked self.new ≡ asked self.old }
        ensures names { named self.new ≡ named self.old }
        ensures bound { ReadsAtMost result buf.new }
        ensures bytes { ReadConsumes (left self.old) (left self.new) result buf.new }
        ensures cause { HasCause (faults self.old) (faults self.new) result };
}

/// Why a file wasn't read whole.
#[derive(Clone, Copy, Debug, PartialEq, Eq)]
pub enum ReadError {
    /// It holds more bytes than the limit.
    TooLong,
    /// A read failed.
    ReadFault,
    /// Memory ran out.
    NoMemory,
}

/// The most bytes that one read asks for.
pub const MOST_ASKED: usize = 65_536;

/// Reads at most `most` bytes of the current file into the start of `chunk`, and returns how many.
/// Into a chunk that is not empty 0 is the file's end.
pub fn read_at_most<F: Files>(files: &mut F, chunk: &mut [u8], most: usize) -> Result<usize, Failed>
    requires { 0 < most }
    ensures asks { F.asked files.new ≡ F.asked files.old }
    ensures names { F.named files.new ≡ F.named files.old }
    ensures bound { ReadsAtMost result chunk.new }
    ensures most { IfOk result (λ n. n ≤ most) }
    ensures bytes { ReadConsumes (F.left files.old) (F.left files.new) result chunk.new }
    ensures cause { HasCause (F.faults files.old) (F.faults files.new) result }
{
    let asked = most.min(chunk.len());
    files.read(&mut chunk[..asked])
}

/// Reads the current file to its end, or to the first byte past `limit`, and returns its bytes. It
/// asks for at most 65,536 bytes at a time. After an error a prefix of the file may have been
/// read.
pub fn read_whole<F: Files>(
    alloc: Global,
    files: &mut F,
    limit: usize,
) -> Result<Vec<u8>, ReadError>
    requires { limit < 2 ^ 32 }
    ensures bytes { IfOk result (λ v. IfSome (F.left files.old) (λ xs. v.items ≡ xs)) }
    ensures short { IfOk result (λ v. vec_len v ≤ limit) }
    ensures end { OnOk result (IsAtEnd (F.left files.new)) }

    // A file that is too long was read to the first byte past the limit.
    ensures long { IsErrOf result ReadError.TooLong → IfSome (F.left files.old) (λ xs. limit < length xs) }
    ensures taken { ConsumesAtMost (F.left files.old) (F.left files.new) (limit + 1) }

    // The result is an error exactly if one occurred.
    ensures faults { CountsFault (IsErrOf result ReadError.ReadFault) (F.faults files.old) (F.faults files.new) }
    ensures reported { F.faults files.old < F.faults files.new → IsErrOf result ReadError.ReadFault }

    ensures names { F.named files.new ≡ F.named files.old }
    ensures asks { F.asked files.new ≡ F.asked files.old }
{
    let Ok(mut chunk) = vec![in alloc; 0u8; MOST_ASKED.min(limit + 1)] else {
        return Err(ReadError::NoMemory);
    };
    let mut bytes = Vec::new(alloc);
    while bytes.len() <= limit {
        let Ok(count) = read_at_most(files, &mut chunk, limit + 1 - bytes.len()) else {
            return Err(ReadError::ReadFault);
        };
        if count == 0 {
            return Ok(bytes);
        }
        if bytes.extend_from_slice(&chunk[..count]).is_err() {
            return Err(ReadError::NoMemory);
        }
    }
    Err(ReadError::TooLong)
}
