//! Messages inside messages.
ghost use Rattle.std.specs.Prelude.{◌≡◌, ◌<◌, ◌^◌, length};
ghost use Rattle.proto_wire.specs.Reading.{Gives};
ghost use Rattle.proto_wire.specs.FieldValues.{read_repeated, read_singular, delimited_len};
ghost use Rattle.proto_wire.specs.View.{views};

use crate::field::{Field, WireFault};
use crate::values::join_occurrences;
use std::alloc::Global;
use xc_base::List;

/// A message that can be read from its bytes.
pub trait Message: Drop {
    ghost use Rattle.std.specs.Prelude.{ℕ, List, Result};

    /// What the bytes say, or the place of the field that can't be read.
    ghost reading: { List ℕ → Result Self ℕ };

    /// Reads the message.
    fn read(alloc: Global, bytes: &[u8]) -> Result<Self, WireFault>
        requires { length bytes.now < 2 ^ 32 }
        ensures { Gives (λ m. m) result (reading bytes.now) };
}

/// The repeated messages of the number, each read from its own bytes. `At` is a place in the first of
/// them that can't be read.
#[tactic(auto, unfolding(crate::specs::FieldValues::read_repeated, crate::specs::Reading::gathered, crate::specs::Reading::optional))]
pub fn read_repeated<M: Message>(
    alloc: Global,
    list: &[Field<'_>],
    number: u32,
) -> Result<List<M>, WireFault>
    requires { delimited_len (views list.now) < 2 ^ 32 }
    ensures { Gives (λ l. l) result (read_repeated M.reading number (views list.now)) }
{
    let mut all = List::new(alloc);
    for field in list {
        if let Some(bytes) = field.bytes(number) {
            let message = M::read(alloc, bytes)?;
            all.push(message)?;
        }
    }
    Ok(all)
}

/// The singular message of the number, read from the bytes of its occurrences one after another. `At` is a
/// place in these bytes. None exactly where it doesn't occur.
#[tactic(auto, unfolding(crate::specs::Reading::optional))]
pub fn read_singular<M: Message>(
    alloc: Global,
    list: &[Field<'_>],
    number: u32,
) -> Result<Option<M>, WireFault>
    requires { delimited_len (views list.now) < 2 ^ 32 }
    ensures { Gives (λ m. m) result (read_singular M.reading number (views list.now)) }
{
    match join_occurrences(alloc, list, number)? {
        Some(bytes) => {
            let message = M::read(alloc, bytes.as_slice())?;
            Ok(Some(message))
        }
        None => Ok(None),
    }
}
