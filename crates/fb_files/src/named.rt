//! The bytes of a named file.

ghost use Rattle.std.specs.Prelude.{◌≡◌, ◌≢◌, ◌<◌, ◌≤◌, ◌^◌, [], ◌∷◌, length, IfOk, IfErr, IsErrOf, Err};
ghost use Rattle.fb_ports.specs.Causes.{HasRoom, CountsFault};
ghost use Rattle.fb_files.specs.Judging.{Asks, AsksPrefix, Holds, IfRefused};

use crate::fault::FileFault;
use fb_ports::{Files, ReadError, read_whole};
use std::alloc::Global;

/// The bytes of the named file. Returns an error if there are more than `limit`, which are refused as `too_long`, if the file
/// can't be opened or read, or if memory runs out.
pub fn read_named<F: Files, E: Copy>(
    alloc: Global,
    files: &mut F,
    name: &str,
    limit: usize,
    too_long: E,
) -> Result<Vec<u8>, FileFault<E>>
    requires few { limit < 2 ^ 32 }
    requires room { HasRoom (F.asked files.old) 16 }
    ensures asks { AsksPrefix (F.asked files.old) (F.asked files.new) (name.now ∷ []) }
    ensures asked { result ≢ Err FileFault.NoMemory → Asks (F.asked files.old) (F.asked files.new) (name.now ∷ []) }
    ensures names { F.named files.new ≡ F.named files.old }
    ensures bytes { IfOk result (λ v. Holds (F.named files.old) name.now (λ text. text ≡ v.items)) }
    ensures short { IfOk result (λ v. length v.items ≤ limit) }
    ensures refused { IfErr result (IfRefused (λ fault. (fault ≡ too_long) × Holds (F.named files.old) name.now (λ text. limit < length text))) }
    ensures faults { CountsFault (IsErrOf result FileFault.ReadFault) (F.faults files.old) (F.faults files.new) }
    ensures reported { F.faults files.old < F.faults files.new → IsErrOf result FileFault.ReadFault }
{
    let Ok(name) = String::from_str(alloc, name) else {
        return Err(FileFault::NoMemory);
    };
    if files.open_file(name).is_err() {
        return Err(FileFault::ReadFault);
    }
    match read_whole(alloc, files, limit) {
        Ok(text) => Ok(text),
        Err(ReadError::TooLong) => Err(FileFault::Refused(too_long)),
        Err(ReadError::ReadFault) => Err(FileFault::ReadFault),
        Err(ReadError::NoMemory) => Err(FileFault::NoMemory),
    }
}
