//! Consumers of texts that arrive in parts.
ghost use Rattle.std.specs.Prelude.{◌≡◌, ◌++◌, [], ℕ, List, IfErr, IfOk};
ghost use Rattle.thp_script.specs.declared.fault.ReadFault.TheVariants.{OutOfMemory};

use crate::fault::ReadFault;

/// A consumer of a text that arrives in parts.
pub trait ReadsParts: Sized {
    /// The second state follows from the first by reading these bytes.
    ghost has_read: { Self → List ℕ → Self → Type 0 };

    /// Reads the next part of the text.
    fn read_part(self, part: &[u8]) -> Result<Self, ReadFault>
        ensures read { IfOk result (has_read self part.now) }
        ensures memory { IfErr result (λ fault. fault ≡ OutOfMemory) };

    /// A consumer that reads nothing does not change.
    ghost nothing_read: { (r : Self) → has_read r [] r };

    /// Reading bytes and then more bytes is reading all of them.
    ghost more_read: { (a b c : Self) (first more : List ℕ) → has_read a first b → has_read b more c → has_read a (first ++ more) c };
}
