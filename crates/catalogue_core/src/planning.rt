//! Plans made.
ghost use Rattle.std.specs.Prelude.{◌≡◌, ◌≤◌, None};

use crate::plans::Plan;
use album_merge::TrackTally;
use catalogue_rows::Fresh;
use keeper_store::Change;
use library_model::Reply;

/// The plan of changes that bring no new album.
pub(crate) fn plan_of(
    changes: Vec<Change>,
    tally: Option<TrackTally>,
    released: Option<u32>,
    reply: Reply,
) -> Plan
    requires least { 200 ≤ reply.status }
    requires most { reply.status ≤ 201 }
    ensures changes { result.changes.items ≡ changes.items }
    ensures fresh { result.fresh ≡ record { tally = tally; album = None } }
    ensures released { result.released ≡ released }
    ensures reply { result.reply ≡ reply }
{
    let fresh = Fresh { tally, album: None };
    Plan {
        changes,
        fresh,
        released,
        reply,
    }
}
