// The key from which the words of a session come.
ghost use Rattle.std.specs.Prelude.{◌≡◌, ◌<◌, length, IfOk, IfSome, Err};
ghost use Rattle.std.specs.Io.KnownBytes.{Consumes};
ghost use Rattle.pump_frame.specs.Counts.{Rose};
ghost use Rattle.serving.specs.declared.keys.KeyFault.TheVariants.{Failed, Short};

use pump_link::Source;

/// Why there is no key.
#[derive(Clone, Copy, PartialEq, Eq, Debug)]
pub enum KeyFault {
    /// A read failed.
    Failed,
    /// The source ended before 32 bytes.
    Short,
}

/// The first 32 bytes of the source, which is read no further. `Failed` comes only where the source's
/// count of faults rose, and `Short` only where it ended before.
pub fn read_key<Q: Source>(keys: &mut Q) -> Result<[u8; 32], KeyFault>
    ensures key { IfOk result (λ key. Consumes (Q.left keys.old) (Q.left keys.new) key) }
    ensures short { result ≡ Err Short → IfSome (Q.left keys.old) (λ bytes. length bytes < 32) }
    ensures failed { result ≡ Err Failed → Rose (Q.faults keys.old) (Q.faults keys.new) }
{
    let mut key = [0; 32];
    let mut at = 0;
    while at < 32 {
        match keys.read(&mut key[at..]) {
            Ok(0) => return Err(KeyFault::Short),
            Ok(n) => at += n,
            Err(_) => return Err(KeyFault::Failed),
        }
    }
    Ok(key)
}
