//! Why a value of a file is not read, with the JSON pointer to the first wrong value.

ghost use Rattle.std.specs.Prelude.{◌≡◌, ◌++◌, List, OnOk, IfOk};
ghost use Rattle.grammar_defs.specs.Pointers.{Pointer, below, all_below, escaped, escaped_byte, itself};
ghost use Rattle.std.specs.Fmt.{decimal};
ghost use Rattle.grammar_json.specs.Faults.{IsFirst};
ghost use Rattle.grammar_json.specs.declared.fault.Fault.TheVariants.{Memory};

use std::alloc::{AllocError, AllocFailed, Global};
use text_pos::Bytes;

/// Why a value wasn't read: a value in it is of a wrong kind, or memory is wanting.
#[derive(Debug, Drop)]
pub enum Fault {
    /// The JSON pointer, from the value that was read, to the first value of a wrong kind.
    Shape { path: Bytes },
    Memory,
}

impl From<AllocError> for Fault {
    ghost from_gives = { λ _ e. e ≡ Memory };

    fn from(_e: AllocError) -> Fault {
        Fault::Memory
    }
}

impl<T: Drop> From<AllocFailed<T>> for Fault {
    ghost from_gives = { λ _ e. e ≡ Memory };

    fn from(_e: AllocFailed<T>) -> Fault {
        Fault::Memory
    }
}

/// The fault as it is told of the value above, in which the value that was read stands at `key`.
pub(crate) fn below(alloc: Global, key: &str, fault: Fault) -> Fault
    ensures { (faults : List Pointer) → IsFirst fault faults → IsFirst result (all_below key.now faults) }
{
    match fault {
        Fault::Shape { path } => match path_below(alloc, key.as_bytes(), path.as_slice()) {
            Ok(path) => Fault::Shape { path },
            Err(_) => Fault::Memory,
        },
        Fault::Memory => Fault::Memory,
    }
}

/// The value that is read is itself of a wrong kind.
pub(crate) fn itself(alloc: Global) -> Fault
    ensures { IsFirst result itself }
{
    Fault::Shape {
        path: Bytes::new(alloc),
    }
}

fn path_below(alloc: Global, key: &[u8], path: &[u8]) -> Result<Bytes, AllocError>
    ensures { IfOk result (λ p. p ≡ below key.now path.now) }
{
    let mut made = Bytes::new(alloc);
    made.push(b'/')?;
    push_escaped(&mut made, key)?;
    made.append(path)?;
    Ok(made)
}

/// Adds the key as it is written in a JSON pointer (RFC 6901).
fn push_escaped(path: &mut Bytes, key: &[u8]) -> Result<(), AllocError>
    ensures { OnOk result (path.new ≡ path.old ++ escaped key.now) }
{
    for byte in key {
        push_part(path, *byte)?;
    }
    Ok(())
}

fn push_part(path: &mut Bytes, byte: u8) -> Result<(), AllocError>
    ensures { OnOk result (path.new ≡ path.old ++ escaped_byte byte) }
{
    match byte {
        b'~' => path.append(b"~0"),
        b'/' => path.append(b"~1"),
        _ => path.push(byte),
    }
}

/// The same where the value that was read is a member of a list.
pub(crate) fn below_index(alloc: Global, index: usize, fault: Fault) -> Fault
    ensures { (faults : List Pointer) → IsFirst fault faults → IsFirst result (all_below (decimal index) faults) }
{
    match format!(in alloc; "{index}") {
        Ok(key) => below(alloc, key.as_str(), fault),
        Err(_) => Fault::Memory,
    }
}
