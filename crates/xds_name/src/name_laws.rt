//! Laws of names and targets, each a call that does nothing.
ghost use Rattle.std.specs.Prelude.{ℕ, List};
ghost use Rattle.xds_name.specs.NameLaws.{CanonicalNamesStay, NamesHaveForms, TargetsHaveForms};
ghost use Rattle.xds_name.specs.Parameters.{AreInOrder};

/// The parameters of a canonical name are those of the name, none dropped, in the only order in which
/// none stands before one with a lesser key, or with the same key and a lesser text.
pub fn parameters_are_in_order()
    ensures { (parameters : List (List ℕ)) → AreInOrder parameters }
{}

/// A canonical text is its own canonical text, and lives where the name lives.
pub fn canonical_names_stay()
    ensures { CanonicalNamesStay }
{}

/// A name has parts exactly where it has the form `xdstp://authority/type/id`, with an optional `?` and
/// parameters.
pub fn names_have_forms()
    ensures { NamesHaveForms }
{}

/// A target has an authority, if it names one, and a name exactly where it has one of the three forms.
pub fn targets_have_forms()
    ensures { TargetsHaveForms }
{}
