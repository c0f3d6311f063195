//! Rules that are tried as a file is read.
ghost use Rattle.std.specs.Prelude.{◌≡◌, ℕ, List, true};
ghost use Rattle.file_model.specs.FlacBreaks.{FlacBreaks};
ghost use Rattle.file_model.specs.FlacRules.{flac_rule_of};
ghost use Rattle.file_model.specs.Outcomes.{Gives, holds};
ghost use Rattle.flac_stream.specs.Answers.{IsRefusalOf};

use file_model::FlacRule;
use lib_base::{Broken, Refused};

/// Tries a rule, which is broken unless the fact holds.
pub(crate) fn holds(fact: bool, rule: FlacRule) -> Result<(), FlacRule>
    ensures { Gives (λ _. true) result (holds fact rule) }
{
    if fact { Ok(()) } else { Err(rule) }
}

/// A rule that is broken at a place.
pub(crate) fn breaks(rule: FlacRule, place: usize) -> Broken
    ensures { result ≡ record { rule = flac_rule_of rule; place = place } }
{
    Broken {
        rule: rule.rule(),
        place: place as u64,
    }
}

/// The refusal of a file that breaks a rule at a place, before any other.
pub(crate) fn refused(rule: FlacRule, place: usize) -> Refused
    ensures { (bytes : List ℕ) → FlacBreaks bytes rule place → IsRefusalOf bytes result }
{
    Refused::Broken(breaks(rule, place))
}
