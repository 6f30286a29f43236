//! The laws of a whole request, each the contract of a function that does nothing.

ghost use Rattle.request_model.specs.Calls.{CallsHold};
ghost use Rattle.request_model.specs.Requests.{RequestsAreFaithful};

use field_writes::laws::writes_are_of_their_shape;
use keep_calls::laws::{cuts_are_told, nothing_else_leaves};
use step_calls::laws::{excerpts_are_views, excerpts_write_alike};

/// Of each context of a request, which services make by joins, updates and keeps under parts of one
/// table: what is read as exact is the join of all that was written and received on the ways to it,
/// and nothing that is read is more than that. Contexts may be used several times, come late, or be
/// lost.
pub fn requests_are_faithful()
    ensures { RequestsAreFaithful }
{
    // The proof rests on these laws.
    excerpts_are_views();
    excerpts_write_alike();
    cuts_are_told();
    nothing_else_leaves();
}

/// What the calls of the library make of contexts of a request are contexts of it.
pub fn calls_hold()
    ensures { CallsHold }
{
    // The proof rests on this law.
    writes_are_of_their_shape();
}
