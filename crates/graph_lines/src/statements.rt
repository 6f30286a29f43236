//! What a line says.

use context_model::Form;

/// What a line of a recorded graph says, before any name is looked up. Its texts are parts of the
/// line.
#[derive(Debug, Drop)]
pub enum Statement<'a> {
    /// A service, the form in which it writes contexts, and what it may see of them.
    Service {
        form: Form,
        name: &'a str,
        view: NamedView<'a>,
    },
    /// A step: its number, as the line tells it, and what happens in it.
    Step {
        number: u64,
        act: NamedAct<'a>,
    },
    /// A step whose context is to be shown.
    Show {
        step: u64,
    },
}

/// What a service may see, by name.
#[derive(Debug, Drop)]
pub enum NamedView<'a> {
    All,
    Nothing,
    /// What is at these paths, each one or more names with dots between them; there is at least one
    /// path.
    Only(Vec<&'a str>),
}

/// What happens in a step. Services and fields are given by their names, earlier steps by their
/// numbers.
#[derive(Debug, Drop)]
pub enum NamedAct<'a> {
    /// An empty context begins at a service.
    Start {
        service: &'a str,
    },
    /// A service receives a context from outside, given by hexadecimal digits, which weren't looked
    /// at yet.
    Recv {
        service: &'a str,
        hex: &'a str,
    },
    /// A write to a field, whose value wasn't looked at yet; it isn't empty.
    Set {
        parent: u64,
        path: &'a str,
        write: &'a str,
    },
    /// A copy of the parent's context.
    Branch {
        parent: u64,
    },
    /// The parent's context is sent to another service.
    Forward {
        parent: u64,
        service: &'a str,
    },
    /// The parent's context is trimmed to `budget` bytes.
    Trim {
        parent: u64,
        budget: u64,
    },
    /// The contexts of the parents are merged; there is at least one.
    Join {
        parents: Vec<u64>,
    },
}
