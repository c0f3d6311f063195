//! The rules of a block of comments, and the rule over all formats.
ghost use Rattle.std.specs.Prelude.{◌≡◌};
ghost use Rattle.file_model.specs.Comments.{comment_rule_of};
ghost use Rattle.file_model.specs.Files.{kind_rule_of};

use lib_base::Rule;

/// The rules that a block of comments can break, in the order of their numbers, the first of which
/// is 1 (RFC 9639 section 8.6).
///
/// A block that breaks several is refused by the one that is tried first: as its bytes come.
#[derive(Clone, Copy, Debug, PartialEq, Eq)]
pub enum CommentRule {
    /// The vendor's length, or the vendor, passes the end of the block.
    CutVendor = 1,
    /// The count, or a comment's length, or a comment passes the end of the block.
    CutComment,
    /// Bytes behind the last comment.
    BytesLeft,
}

impl CommentRule {
    /// The rule by family and number, as it is printed.
    pub fn rule(self) -> Rule
        ensures { result ≡ comment_rule_of self }
    {
        Rule::C(self as u8)
    }
}

/// A block of comments breaks this rule at this place, a byte offset from the start of its content.
#[derive(Clone, Copy, Debug, PartialEq, Eq)]
pub struct CommentBreak {
    pub rule: CommentRule,
    pub place: usize,
}

/// The rules over all formats, in the order of their numbers, the first of which is 1.
#[derive(Clone, Copy, Debug, PartialEq, Eq)]
pub enum KindRule {
    /// Others than `RIFF` or `fLaC` at the start.
    OtherKind = 1,
}

impl KindRule {
    /// The rule by family and number, as it is printed.
    pub fn rule(self) -> Rule
        ensures { result ≡ kind_rule_of self }
    {
        Rule::K(self as u8)
    }
}
