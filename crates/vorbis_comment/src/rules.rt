//! The rules that are tried as a block is read.
ghost use Rattle.std.specs.Prelude.{◌≡◌};
ghost use Rattle.vorbis_comment.specs.Answers.{RefusesBy};

use file_model::CommentBreak;
use lib_base::{Broken, Refused};

/// The refusal of a block that breaks a rule at a place.
pub(crate) fn refused(found: CommentBreak) -> Refused
    ensures { RefusesBy result found }
{
    Refused::Broken(Broken {
        rule: found.rule.rule(),
        place: found.place as u64,
    })
}
