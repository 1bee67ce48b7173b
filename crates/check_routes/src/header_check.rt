//! The checks of a header matcher (gRFC A28, Envoy's HeaderMatcher and StringMatcher).
ghost use Rattle.std.specs.Prelude.{◌≡◌};
ghost use Rattle.check_steps.specs.Asking.{AsksUntil, TellsOver, ending};
ghost use Rattle.check_routes.specs.HeaderTable.{with_case, header_rule, header_test, pattern_test, string_test};
ghost use Rattle.check_steps.specs.TableSteps.{each};

use check_steps::asked::Asked;
use check_steps::check_fault::Fault;
use header_match::{HeaderRule, HeaderTest, Patterns, TextTest};
use proto_route::{
    RawHeaderMatcher, RawHeaderMatcherOne, RawRegexMatcher, RawStringMatcher, RawStringMatcherOne,
};
use std::alloc::Global;
use xc_base::{List, Reason};

/// The test by a pattern.
fn pattern_test<P: Patterns>(
    asked: &mut Asked,
    patterns: &mut P,
    pattern: &RawRegexMatcher,
) -> Result<HeaderTest, Fault>
    ensures value { TellsOver asked.new result (λ refuses. pattern_test refuses pattern.now.regex) }
    ensures asked { AsksUntil asked.old asked.new (P.refused patterns.old) (P.refused patterns.new) (ending result) }
{
    let built = asked.pattern(patterns, &pattern.regex)?;
    Ok(HeaderTest::Pattern(built))
}

/// The test with or without case.
fn with_case(ignore_case: bool, test: TextTest) -> HeaderTest
    ensures { result ≡ with_case ignore_case test }
{
    if ignore_case {
        return HeaderTest::NoCase(test);
    }
    match test {
        TextTest::Exact(text) => HeaderTest::Exact(text),
        TextTest::Prefix(text) => HeaderTest::Prefix(text),
        TextTest::Suffix(text) => HeaderTest::Suffix(text),
        TextTest::Contains(text) => HeaderTest::Contains(text),
    }
}

/// The test of a StringMatcher. Case is ignored where it says so, but not in patterns.
fn string_test<P: Patterns>(
    asked: &mut Asked,
    patterns: &mut P,
    string: &RawStringMatcher,
) -> Result<HeaderTest, Fault>
    ensures value { TellsOver asked.new result (λ refuses. string_test refuses string.now.ignore_case string.now.one) }
    ensures asked { AsksUntil asked.old asked.new (P.refused patterns.old) (P.refused patterns.new) (ending result) }
{
    let ignore_case = string.ignore_case;
    match &string.one {
        None => Err(Fault::because(Reason::NoHeaderMatch)),
        Some(RawStringMatcherOne::Exact(text)) => {
            Ok(with_case(ignore_case, TextTest::Exact(text.clone()?)))
        }
        Some(RawStringMatcherOne::Prefix(text)) => {
            Ok(with_case(ignore_case, TextTest::Prefix(text.clone()?)))
        }
        Some(RawStringMatcherOne::Suffix(text)) => {
            Ok(with_case(ignore_case, TextTest::Suffix(text.clone()?)))
        }
        Some(RawStringMatcherOne::SafeRegex(pattern)) => pattern_test(asked, patterns, pattern),
        Some(RawStringMatcherOne::Contains(text)) => {
            Ok(with_case(ignore_case, TextTest::Contains(text.clone()?)))
        }
    }
}

/// The test of a header matcher.
fn header_test<P: Patterns>(
    asked: &mut Asked,
    patterns: &mut P,
    one: &Option<RawHeaderMatcherOne>,
) -> Result<HeaderTest, Fault>
    ensures value { TellsOver asked.new result (λ refuses. header_test refuses one.now) }
    ensures asked { AsksUntil asked.old asked.new (P.refused patterns.old) (P.refused patterns.new) (ending result) }
{
    match one {
        None => Err(Fault::because(Reason::NoHeaderMatch)),
        Some(RawHeaderMatcherOne::ExactMatch(text)) => Ok(HeaderTest::Exact(text.clone()?)),
        Some(RawHeaderMatcherOne::RangeMatch(range)) => Ok(HeaderTest::Range {
            start: range.start,
            end: range.end,
        }),
        Some(RawHeaderMatcherOne::PresentMatch(there)) => Ok(HeaderTest::Present(*there)),
        Some(RawHeaderMatcherOne::PrefixMatch(text)) => Ok(HeaderTest::Prefix(text.clone()?)),
        Some(RawHeaderMatcherOne::SuffixMatch(text)) => Ok(HeaderTest::Suffix(text.clone()?)),
        Some(RawHeaderMatcherOne::SafeRegexMatch(pattern)) => {
            pattern_test(asked, patterns, pattern)
        }
        Some(RawHeaderMatcherOne::ContainsMatch(text)) => Ok(HeaderTest::Contains(text.clone()?)),
        Some(RawHeaderMatcherOne::StringMatch(string)) => string_test(asked, patterns, string),
    }
}

/// The rule of a header matcher. Its name is kept as it is written.
#[tactic(auto, unfolding(crate::specs::HeaderTable::header_rule))]
fn header_rule<P: Patterns>(
    asked: &mut Asked,
    patterns: &mut P,
    raw: &RawHeaderMatcher,
) -> Result<HeaderRule, Fault>
    ensures value { TellsOver asked.new result (λ refuses. header_rule refuses raw.now) }
    ensures asked { AsksUntil asked.old asked.new (P.refused patterns.old) (P.refused patterns.new) (ending result) }
{
    let test = header_test(asked, patterns, &raw.one)?;
    let name = raw.name.clone()?;
    Ok(HeaderRule {
        name,
        test,
        invert: raw.invert_match,
    })
}

/// The rules of the header matchers, one after another.
pub fn header_rules<P: Patterns>(
    alloc: Global,
    asked: &mut Asked,
    patterns: &mut P,
    raws: &[RawHeaderMatcher],
) -> Result<List<HeaderRule>, Fault>
    ensures value { TellsOver asked.new result (λ refuses. each (header_rule refuses) raws.now) }
    ensures asked { AsksUntil asked.old asked.new (P.refused patterns.old) (P.refused patterns.new) (ending result) }
{
    let mut rules = List::new(alloc);
    for raw in raws {
        let rule = header_rule(asked, patterns, raw)?;
        rules.push(rule)?;
    }
    Ok(rules)
}
