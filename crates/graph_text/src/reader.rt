//! What the lines of a text have said so far, and what that allows the next line to name.

ghost use Rattle.std.specs.Prelude.{◌≡◌, ◌≢◌, ◌<◌, ◌≤◌, length, None, Some, IfOk, IfErr, OnOk, OnErr, All};
ghost use Rattle.trace_model.specs.Graphs.{form_at};
ghost use Rattle.recorded_graph.specs.declared.graphs.TheConstants.{STEPS_MAX};
ghost use Rattle.recorded_graph.specs.Graphs.{empty_graph, with_service, with_step, with_show, MayBeNext};
ghost use Rattle.recorded_graph.specs.Plain.{service_of, step_of};
ghost use Rattle.graph_text.specs.Names.{service_named, service_at};

use crate::faults::GraphCode;
use context_model::Form;
use outside::Memory;
use recorded_graph::{Graph, STEPS_MAX, Service, Step};
use std::alloc::Global;
use std::collections::BTreeMap;
use std::marker::Model;

/// The graph that lines have said so far, with the numbers of its services by name. Contracts see
/// it as the graph.
#[derive(Drop)]
pub(crate) struct Reader<'a> {
    graph: Graph,
    numbers: BTreeMap<&'a str, usize>,
}

impl<'a> Model for Reader<'a> {
    ghost use Rattle.std.specs.Prelude.{◌≡◌};
    ghost use Rattle.trace_model.specs.Graphs as model;
    ghost use Rattle.recorded_graph.specs.GraphCode.{graph_code};
    ghost use Rattle.graph_text.specs.Names.{NumbersServices};

    ghost Value = { model.Graph };

    ghost coded = { graph_code };

    ghost view = { λ reader. reader.graph };

    ghost invariant = { λ reader. NumbersServices reader.graph reader.numbers };
}

impl<'a> Reader<'a> {
    /// Nothing was said yet.
    pub(crate) fn new(alloc: Global) -> Reader<'a>
        ensures { result ≡ empty_graph }
    {
        Reader {
            graph: Graph::new(alloc),
            numbers: BTreeMap::new(alloc),
        }
    }

    /// The graph so far.
    pub(crate) fn graph(&self) -> &Graph
        ensures { result.now ≡ self.now }
    {
        &self.graph
    }

    /// The graph that all lines said.
    pub(crate) fn into_graph(self) -> Graph
        ensures { result ≡ self.entry }
    {
        self.graph
    }

    /// The number of a step must be that of the steps before it.
    pub(crate) fn check_number(&self, number: u64) -> Result<(), GraphCode>
        ensures ok { OnOk result (number ≡ length self.now.steps) }
        ensures err { IfErr result
            (λ code. (code ≡ GraphCode.StepNumber) × (number ≢ length self.now.steps)) }
    {
        if number == self.graph.steps() as u64 {
            Ok(())
        } else {
            Err(GraphCode::StepNumber)
        }
    }

    /// A step that a line names must be before the line.
    pub(crate) fn earlier(&self, number: u64) -> Result<usize, GraphCode>
        ensures ok { IfOk result (λ step. (step ≡ number) × (step < length self.now.steps)) }
        ensures err { IfErr result
            (λ code. (code ≡ GraphCode.NoSuchStep) × (length self.now.steps ≤ number)) }
    {
        if number < self.graph.steps() as u64 {
            Ok(number as usize)
        } else {
            Err(GraphCode::NoSuchStep)
        }
    }

    /// The number of the service with this name.
    fn number(&self, name: &str) -> Option<usize>
        ensures { result ≡ service_named self.now name.now }
    {
        self.numbers.get(name).copied()
    }

    /// The number of a service that a step goes to: it must be declared.
    pub(crate) fn service(&self, name: &str) -> Result<usize, GraphCode>
        ensures ok { IfOk result (λ number. service_named self.now name.now ≡ Some number) }
        ensures err { IfErr result
            (λ code. (code ≡ GraphCode.NoSuchService) × (service_named self.now name.now ≡ None)) }
    {
        self.number(name).ok_or(GraphCode::NoSuchService)
    }

    /// The name of a new service must not be declared.
    pub(crate) fn check_new(&self, name: &str) -> Result<(), GraphCode>
        ensures ok { OnOk result (service_named self.now name.now ≡ None) }
        ensures err { IfErr result
            (λ code. (code ≡ GraphCode.DuplicateService)
            × (service_named self.now name.now ≢ None)) }
    {
        match self.number(name) {
            None => Ok(()),
            Some(_) => Err(GraphCode::DuplicateService),
        }
    }

    /// There must be room for a step more.
    pub(crate) fn check_room(&self) -> Result<(), GraphCode>
        ensures ok { OnOk result (length self.now.steps < STEPS_MAX) }
        ensures err { IfErr result
            (λ code. (code ≡ GraphCode.TooManySteps) × (STEPS_MAX ≤ length self.now.steps)) }
    {
        if self.graph.steps() < STEPS_MAX {
            Ok(())
        } else {
            Err(GraphCode::TooManySteps)
        }
    }

    /// The number of the service at which a step is.
    pub(crate) fn service_of(&self, step: usize) -> usize
        requires { step < length self.now.steps }
        ensures at { service_at self.now step ≡ Some result }
        ensures within { result < length self.now.services }
    {
        // The proof learns here that the graph is sound.
        self.graph.known();
        self.graph.step(step).service
    }

    /// The form in which a service writes contexts.
    pub(crate) fn form_of(&self, service: usize) -> Form
        requires { service < length self.now.services }
        ensures { result ≡ form_at self.now service }
    {
        self.graph.service(service).form
    }

    /// The same with a service of a new name.
    pub(crate) fn with_service(self, name: &'a str, service: Service) -> Result<Reader<'a>, Memory>
        requires name { service.name ≡ name.now }
        requires new { service_named self name.now ≡ None }
        ensures { IfOk result (λ reader. reader ≡ with_service self.entry (service_of service)) }
    {
        let Reader {
            mut graph,
            mut numbers,
        } = self;
        numbers.insert(name, graph.services())?;
        graph.add_service(service)?;
        Ok(Reader { graph, numbers })
    }

    /// The same with a step that may follow those before.
    pub(crate) fn with_step(self, step: Step) -> Result<Reader<'a>, Memory>
        requires room { length self.steps < STEPS_MAX }
        requires follows { MayBeNext self (step_of step) }
        ensures { IfOk result (λ reader. reader ≡ with_step self.entry (step_of step)) }
    {
        let Reader { mut graph, numbers } = self;
        graph.add_step(step)?;
        Ok(Reader { graph, numbers })
    }

    /// The same with a step that is shown.
    pub(crate) fn with_show(self, step: usize) -> Result<Reader<'a>, Memory>
        requires { step < length self.steps }
        ensures { IfOk result (λ reader. reader ≡ with_show self.entry step) }
    {
        let Reader { mut graph, numbers } = self;
        graph.add_show(step)?;
        Ok(Reader { graph, numbers })
    }
}
