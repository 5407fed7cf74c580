//! What a part of a typing rule's row gives.

ghost use Rattle.std.specs.Prelude.{◌≡◌};
ghost use Rattle.rules_base.specs.Outcomes.{also, beside, both, needs, number_of_rule, sooner};

use note_types::RuleName;

// The number of a rule in the order in which they are tried.
fn number_of_rule(rule: RuleName) -> u8
    ensures { result ≡ number_of_rule rule }
{
    match rule {
        RuleName::Shape => 1,
        RuleName::Function => 2,
        RuleName::Static => 3,
        RuleName::Decode => 4,
        RuleName::State => 5,
        RuleName::Point => 6,
        RuleName::Relocation => 7,
        RuleName::Form => 8,
        RuleName::Stack => 9,
        RuleName::Address => 10,
        RuleName::Null => 11,
        RuleName::Unwritten => 12,
        RuleName::Store => 13,
        RuleName::Compare => 14,
        RuleName::Divide => 15,
        RuleName::Target => 16,
        RuleName::Site => 17,
        RuleName::Level => 18,
        RuleName::Thunk => 19,
        RuleName::Arguments => 20,
        RuleName::Return => 21,
        RuleName::Below => 22,
        RuleName::End => 23,
    }
}

/// The one of two rules that is tried first.
#[tactic(auto, unfolding(crate::specs::Outcomes::sooner))]
pub fn sooner(rule: RuleName, other: RuleName) -> RuleName
    ensures { result ≡ sooner rule other }
{
    if number_of_rule(rule) <= number_of_rule(other) {
        rule
    } else {
        other
    }
}

/// What two parts of a row give, or the rule that is tried first of those by which they fail.
pub fn beside<A: Copy, B: Copy>(
    a: Result<A, RuleName>,
    b: Result<B, RuleName>,
) -> Result<(A, B), RuleName>
    ensures { result ≡ beside a b }
{
    match a {
        Ok(x) => match b {
            Ok(y) => Ok((x, y)),
            Err(rule) => Err(rule),
        },
        Err(rule) => match b {
            Ok(_) => Err(rule),
            Err(other) => Err(sooner(rule, other)),
        },
    }
}

/// What a part of a row gives where a condition beside it holds, or the rule that is tried first of those that fail.
pub fn also<A: Copy>(a: Result<A, RuleName>, fails: Option<RuleName>) -> Result<A, RuleName>
    ensures { result ≡ also a fails }
{
    match a {
        Ok(x) => match fails {
            None => Ok(x),
            Some(rule) => Err(rule),
        },
        Err(rule) => match fails {
            None => Err(rule),
            Some(other) => Err(sooner(rule, other)),
        },
    }
}

/// The rule that fails where a condition doesn't hold.
pub fn needs(rule: RuleName, holds: bool) -> Option<RuleName>
    ensures { result ≡ needs rule holds }
{
    if holds { None } else { Some(rule) }
}

/// The rule that is tried first of those that fail.
pub fn both(fails: Option<RuleName>, other: Option<RuleName>) -> Option<RuleName>
    ensures { result ≡ both fails other }
{
    match fails {
        None => other,
        Some(rule) => match other {
            None => Some(rule),
            Some(later) => Some(sooner(rule, later)),
        },
    }
}
