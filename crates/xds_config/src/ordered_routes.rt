//! Routes in the order of their places.
ghost use Rattle.std.specs.Prelude.{◌≡◌, ◌==◌, IfOk, map, option_copied};
ghost use Rattle.std.specs.List.{find};
ghost use Rattle.xds_config.specs.SearchedLists.{AreByPlace};
ghost use Rattle.xds_config.specs.PathLengths.{length_test};

use crate::path_lengths::{LengthTest, length_test};
use crate::route_values::Route;
use std::alloc::Global;
use std::fmt;
use std::marker::Model;
use xc_base::{List, Memory, Same};

/// What the tests of the paths of routes say of a path's length.
fn length_tests(alloc: Global, routes: &[Route]) -> Result<List<LengthTest>, Memory>
    ensures { IfOk result (λ tests. tests ≡ map (λ route. length_test route.path) routes.now) }
{
    let mut tests = List::from_vec(Vec::with_capacity(alloc, routes.len())?);
    for route in routes {
        tests.push(length_test(&route.path))?;
    }
    Ok(tests)
}

/// Routes by rising place, no two at one, which contracts see as the list of them. A place is found by
/// halves. The lengths of paths that may meet them lie side by side, so that a search for the routes of a call reads few of them.
#[derive(Drop, PartialEq, Eq)]
pub struct Routes {
    items: List<Route>,
    tests: List<LengthTest>,
}

impl Model for Routes {
    ghost use Rattle.std.specs.Prelude.{◌≡◌, List, map};
    ghost use Rattle.std.proofs.Common.{ap, sym};
    ghost use Rattle.xds_config.specs.declared.route_values.Route.{Route};
    ghost use Rattle.xds_config.specs.SearchedLists.{AreByPlace};
    ghost use Rattle.xds_config.specs.PathLengths.{length_test};

    ghost Value = { List Route };

    ghost view = { λ r. r.items };

    ghost invariant = { λ r. AreByPlace r.items × (r.tests ≡ map (λ route. length_test route.path) r.items) };

    ghost inverse = { λ routes. record { items = routes; tests = map (λ route. length_test route.path) routes } };

    ghost inverse_ok = { λ r is. ap (λ tests. record { items = r.items; tests = tests }) (sym (is.1)) };
}

impl Routes {
    /// These routes. It fails for want of memory alone.
    pub fn of(alloc: Global, items: List<Route>) -> Result<Routes, Memory>
        requires { AreByPlace items }
        ensures { IfOk result (λ routes. routes ≡ items) }
    {
        let tests = length_tests(alloc, items.as_slice())?;
        Ok(Routes { items, tests })
    }

    /// Them all, to read.
    pub fn as_slice(&self) -> &[Route]
        ensures { result.now ≡ self.now }
    {
        self.items.as_slice()
    }

    /// For each of them, what its test of the path says of the path's length.
    pub fn length_tests(&self) -> &[LengthTest]
        ensures { result.now ≡ map (λ route. length_test route.path) self.now }
    {
        self.tests.as_slice()
    }

    /// The route of a place. It takes no memory.
    pub fn at(&self, place: u32) -> Option<&Route>
        ensures { option_copied result ≡ find (λ r. r.place == place) self.now }
    {
        let routes = self.items.as_slice();
        match routes.binary_search_by(|route| route.place.cmp(&place)) {
            Ok(at) => Some(&routes[at]),
            Err(_) => None,
        }
    }
}

impl Same for Routes {
    fn same(&self, other: &Routes) -> bool {
        self.items.same(&other.items)
    }
}

impl fmt::Debug for Routes {
    fn fmt<W: fmt::Write>(&self, f: &mut fmt::Formatter<W>) -> fmt::Result {
        let routes = self.as_slice();
        write!(f, "{routes:?}")
    }
}
