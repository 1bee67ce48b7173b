//! Names in resources.
ghost use Rattle.std.specs.Prelude.{◌≢◌, [], IfOk};
ghost use Rattle.check_steps.specs.ResourceNames.{required_name};
ghost use Rattle.check_steps.specs.TableSteps.{Tells};

use crate::check_fault::Fault;
use crate::table_steps::demand;
use std::alloc::Global;
use xc_base::{Reason, Text};
use xds_name::canonical;

/// The canonical text of a name that isn't empty.
pub fn required_name(alloc: Global, text: &Text) -> Result<Text, Fault>
    ensures value { Tells result (required_name text.now) }
    ensures some { IfOk result (λ name. name ≢ []) }
{
    demand(!text.is_empty(), Reason::NoName)?;
    let name = canonical(alloc, text.as_str())?;
    Ok(name)
}
