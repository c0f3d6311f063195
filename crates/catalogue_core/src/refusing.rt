//! Refusals for what lies in a request and in the rows.
ghost use Rattle.std.specs.Prelude.{◌≡◌, IfOk};
ghost use Rattle.library_model.specs.Replies.{format_refusal, refusal};
ghost use Rattle.catalogue_core.specs.declared.plans.Decision.TheVariants as decision;
ghost use Rattle.catalogue_core.specs.Plans.{IsOfRequest};

use crate::plans::Decision;
use json_bodies::{refuse, refuse_format};
use lib_base::{Broken, Memory};
use library_model::Refusal;
use std::alloc::Global;

/// The refusal for a cause that lies in the request and in the rows.
pub(crate) fn refused(alloc: Global, cause: Refusal) -> Result<Decision, Memory>
    requires { IsOfRequest cause }
    ensures { IfOk result (λ made. made ≡ decision.Refused (refusal cause)) }
{
    Ok(Decision::Refused(refuse(alloc, cause)?))
}

/// The refusal of a file that breaks a rule.
pub(crate) fn refused_for(alloc: Global, fault: Broken) -> Result<Decision, Memory>
    ensures { IfOk result (λ made. made ≡ decision.Refused (format_refusal fault.rule fault.place)) }
{
    Ok(Decision::Refused(refuse_format(alloc, fault)?))
}
