//! Rules that are tried as fields are read.
ghost use Rattle.std.specs.Prelude.{◌≡◌, true};
ghost use Rattle.file_model.specs.Outcomes.{Gives, holds};
ghost use Rattle.flac_frames.specs.Answers.{refusal_at};

use file_model::FlacRule;
use lib_base::Broken;

/// Tries a rule, which is broken unless the fact holds.
#[inline(always)]
pub(crate) fn holds(fact: bool, rule: FlacRule) -> Result<(), FlacRule>
    ensures { Gives (λ _. true) result (holds fact rule) }
{
    if fact { Ok(()) } else { Err(rule) }
}

/// The refusal of the frame at a place.
pub(crate) fn broken(rule: FlacRule, at: usize) -> Broken
    ensures { result ≡ refusal_at at rule }
{
    Broken {
        rule: rule.rule(),
        place: at as u64,
    }
}
