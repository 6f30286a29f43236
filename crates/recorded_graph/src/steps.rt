//! Services, and the steps that are at them.

ghost use Rattle.std.specs.Prelude.{◌≡◌, ◌↔◌, ℕ, IsTrue};
ghost use Rattle.trace_model.specs.Graphs.{parents_of, IsSoundAct, StaysAt};
ghost use Rattle.recorded_graph.specs.Plain.{act_of};

use crate::places::Places;
use atom_list::Context;
use bag_value::Val;
use context_model::Form;
use field_table::View;
use outside::Text;

/// A service with its name, the form in which it writes contexts, and the slots that it knows.
#[derive(Debug, Drop)]
pub struct Service {
    pub name: Text,
    pub form: Form,
    pub view: View,
}

/// What a step does. Its parents are steps by their numbers.
#[derive(Debug, Drop)]
pub enum Act {
    /// It starts with nothing.
    Start,
    /// It receives a context.
    Recv(Context),
    /// It writes a value to a slot of its parent's context.
    Set {
        parent: usize,
        slot: usize,
        write: Val,
    },
    /// It goes on at its parent's service.
    Branch {
        parent: usize,
    },
    /// It goes on at a service of its own.
    Forward {
        parent: usize,
    },
    /// It cuts its parent's context to a budget of bytes.
    Trim {
        parent: usize,
        budget: u64,
    },
    /// It joins the contexts of its parents.
    Join {
        parents: Places,
    },
}

/// A step: the number of the service where it is, and what it does.
#[derive(Debug, Drop)]
pub struct Step {
    pub service: usize,
    pub act: Act,
}

impl Act {
    /// The parents, in the order in which they are named.
    pub fn parents(&self) -> &[usize]
        ensures { result.now ≡ parents_of (act_of self.now) }
    {
        match self {
            Act::Start => &[],
            Act::Recv(_) => &[],
            Act::Set {
                parent,
                slot: _,
                write: _,
            } => std::slice::from_ref(parent),
            Act::Branch { parent } => std::slice::from_ref(parent),
            Act::Forward { parent } => std::slice::from_ref(parent),
            Act::Trim { parent, budget: _ } => std::slice::from_ref(parent),
            Act::Join { parents } => parents.as_slice(),
        }
    }

    /// Whether a budget is one that a context can be cut to in the form, and a join has a parent.
    pub fn is_sound(&self, form: Form) -> bool
        ensures { IsTrue result ↔ IsSoundAct form (act_of self.now) }
    {
        match self {
            Act::Trim { parent: _, budget } => form.least_budget() <= *budget,
            Act::Join { parents } => !parents.is_empty(),
            _ => true,
        }
    }

    /// Whether the step has to be at the service of its parents.
    pub(crate) fn stays(&self) -> bool
        ensures { (old new : ℕ) → StaysAt (act_of self.now) old new ↔ (IsTrue result → new ≡ old) }
    {
        !matches!(self, Act::Start | Act::Recv(_) | Act::Forward { parent: _ })
    }
}
