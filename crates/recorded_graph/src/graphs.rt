//! Graphs of steps.

ghost use Rattle.std.specs.Prelude.{◌≡◌, ◌↔◌, ℕ, ◌<◌, ◌≤◌, length, IsTrue, OnOk, OnErr};
ghost use Rattle.context_model.specs.Orders.{IsIn};
ghost use Rattle.trace_model.specs.Graphs.{parents_of, IsGraph, HasService, HasStep};
ghost use Rattle.recorded_graph.specs.Plain.{act_of, service_of, step_of};
ghost use Rattle.recorded_graph.specs.Graphs.{empty_graph, with_service, with_step, with_show, MayHaveParent, MayBeNext};

use crate::steps::{Service, Step};
use outside::Memory;
use std::alloc::Global;
use std::marker::Model;

/// The most steps of a graph.
pub const STEPS_MAX: usize = 100_000;

/// A recorded graph: services, steps and the steps that are shown. Each step names only earlier
/// ones as its parents.
#[derive(Debug, Drop)]
pub struct Graph {
    services: Vec<Service>,
    steps: Vec<Step>,
    shows: Vec<usize>,
}

impl Model for Graph {
    ghost use Rattle.trace_model.specs.Graphs as model;
    ghost use Rattle.recorded_graph.specs.GraphCode.{graph_code};

    ghost Value = { model.Graph };

    ghost coded = { graph_code };

    ghost use Rattle.recorded_graph.specs.Plain.{plain_graph, IsKeptGraph};

    ghost view = { λ graph. plain_graph graph.services.items graph.steps.items graph.shows.items };

    ghost invariant = { λ graph. IsKeptGraph (plain_graph graph.services.items graph.steps.items graph.shows.items) };
}

impl Graph {
    /// No services and no steps. It takes no memory.
    pub fn new(alloc: Global) -> Graph
        ensures { result ≡ empty_graph }
    {
        Graph {
            services: Vec::new(alloc),
            steps: Vec::new(alloc),
            shows: Vec::new(alloc),
        }
    }

    /// Tells that the graph is sound and has at most `STEPS_MAX` steps, as every graph is. It does
    /// nothing.
    pub fn known(&self)
        ensures sound { IsGraph self.now }
        ensures few { length self.now.steps ≤ STEPS_MAX }
    {
        let _ = &self.steps;
    }

    /// How many services there are.
    pub fn services(&self) -> usize
        ensures { result ≡ length self.now.services }
    {
        self.services.len()
    }

    /// The service with this number, from 0 on.
    pub fn service(&self, number: usize) -> &Service
        requires { number < length self.now.services }
        ensures { HasService self.now number (service_of result.now) }
    {
        &self.services[number]
    }

    /// How many steps there are.
    pub fn steps(&self) -> usize
        ensures { result ≡ length self.now.steps }
    {
        self.steps.len()
    }

    /// The step with this number, from 0 on.
    pub fn step(&self, number: usize) -> &Step
        requires { number < length self.now.steps }
        ensures { HasStep self.now number (step_of result.now) }
    {
        &self.steps[number]
    }

    /// The numbers of the steps that are shown, in order.
    pub fn shows(&self) -> &[usize]
        ensures { result.now ≡ self.now.shows }
    {
        self.shows.as_slice()
    }

    /// Whether the number is that of a step, and the other step may be its child.
    fn may_have_parent(&self, step: &Step, parent: usize) -> bool
        ensures { IsTrue result ↔ MayHaveParent self.now (step_of step.now) parent }
    {
        parent < self.steps.len()
            && (!step.act.stays() || self.steps[parent].service == step.service)
    }

    /// Whether the step may be the child of all its parents.
    fn may_have_parents(&self, step: &Step) -> bool
        ensures { IsTrue result
            ↔ ((parent : ℕ) → IsIn parent (parents_of (act_of step.now.act))
            → MayHaveParent self.now (step_of step.now) parent) }
    {
        for parent in step.act.parents() {
            if !self.may_have_parent(step, *parent) {
                return false;
            }
        }
        true
    }

    /// Whether the step may be the next: it is sound, is at a service of the graph, and its parents
    /// are steps of the graph, at whose service it is unless it is a forward. It takes no memory.
    pub fn may_follow(&self, step: &Step) -> bool
        ensures { IsTrue result ↔ MayBeNext self.now (step_of step.now) }
    {
        if self.services() <= step.service {
            return false;
        }
        let form = self.service(step.service).form;
        step.act.is_sound(form) && self.may_have_parents(step)
    }

    /// Adds a service at the end. Where memory runs out, the graph stays unchanged.
    pub fn add_service(&mut self, service: Service) -> Result<(), Memory>
        ensures ok { OnOk result (self.new ≡ with_service self.old (service_of service)) }
        ensures err { OnErr result (self.new ≡ self.old) }
    {
        self.services.push(service)?;
        Ok(())
    }

    /// Adds a step at the end. Where memory runs out, the graph stays unchanged.
    pub fn add_step(&mut self, step: Step) -> Result<(), Memory>
        requires room { length self.old.steps < STEPS_MAX }
        requires follows { MayBeNext self.old (step_of step) }
        ensures ok { OnOk result (self.new ≡ with_step self.old (step_of step)) }
        ensures err { OnErr result (self.new ≡ self.old) }
    {
        self.steps.push(step)?;
        Ok(())
    }

    /// Shows a step, after those that are shown. Where memory runs out, the graph stays unchanged.
    pub fn add_show(&mut self, number: usize) -> Result<(), Memory>
        requires { number < length self.old.steps }
        ensures ok { OnOk result (self.new ≡ with_show self.old number) }
        ensures err { OnErr result (self.new ≡ self.old) }
    {
        self.shows.push(number)?;
        Ok(())
    }
}
