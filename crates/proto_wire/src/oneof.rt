//! The members of a oneof.
ghost use Rattle.std.specs.Prelude.{◌≡◌, ◌<◌, ◌^◌};
ghost use Rattle.proto_wire.specs.Oneof.{read_member, if_set};
ghost use Rattle.proto_wire.specs.Reading.{Gives};
ghost use Rattle.proto_wire.specs.FieldValues.{delimited_len};
ghost use Rattle.proto_wire.specs.View.{views};

use crate::field::{Field, WireFault};
use crate::nested::{Message, read_singular};
use crate::values::last_run;
use std::alloc::Global;

/// The message of a member of a oneof, if that is the member set, among the occurrences of its members. It is
/// read from its occurrences after those of any other one, one after another, and `At` is a place in these
/// bytes. None exactly where the member isn't set.
pub fn read_member<M: Message>(
    alloc: Global,
    members: &[Field<'_>],
    number: u32,
) -> Result<Option<M>, WireFault>
    requires { delimited_len (views members.now) < 2 ^ 32 }
    ensures { Gives (λ m. m) result (read_member M.reading number (views members.now)) }
{
    read_singular(alloc, last_run(members, number), number)
}

/// The value of the member of this number, if that is the member set. It takes no memory.
pub fn if_set<T: Drop>(set: Option<u32>, number: u32, value: T) -> Option<T>
    ensures { result ≡ if_set set number value }
{
    match set {
        Some(set) if set == number => Some(value),
        _ => None,
    }
}
