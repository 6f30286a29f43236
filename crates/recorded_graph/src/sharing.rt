//! That graphs and all that is in them may be sent to threads and shared between them.

use crate::graphs::Graph;
use crate::places::Places;
use crate::steps::{Act, Service, Step};

/// Takes what may be sent and shared, and nothing else.
fn crosses_threads<T: Send + Sync>(_value: &T) {}

/// Compiles as long as graphs with their services and steps may be sent and shared.
fn graphs_cross_threads(graph: &Graph, service: &Service, step: &Step, act: &Act, places: &Places) {
    crosses_threads(graph);
    crosses_threads(service);
    crosses_threads(step);
    crosses_threads(act);
    crosses_threads(places);
}
