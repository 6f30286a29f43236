//! What steps mean: the services, slots and values that their words stand for.

ghost use Rattle.std.specs.Prelude.{◌≡◌, ◌≢◌, ◌<◌, ◌≤◌, ℕ, Some, length, IfOk, IfErr, OnOk};
ghost use Rattle.context_model.specs.Orders.{IsIn};
ghost use Rattle.bag_model.specs.Shapes.{Nodes};
ghost use Rattle.bag_model.specs.Slots.{slots_of};
ghost use Rattle.bag_value.specs.Vals.{plain};
ghost use Rattle.graph_lines.specs.Forms.{IsSoundNamedAct};
ghost use Rattle.graph_lines.specs.Statements as lines;
ghost use Rattle.graph_lines.specs.Acts.{named_act_of};
ghost use Rattle.recorded_graph.specs.Plain.{step_of};
ghost use Rattle.graph_text.specs.Names.{service_at};
ghost use Rattle.graph_text.specs.Additions.{AddStep, FindsKnown, IsWriteAt, IsGoodStatement, IsNextStep, IsRefusedPath, IsRefusedWrite, IsRefusedStatement, IsRefusedNext};

use crate::faults::{GraphCode, LineFault};
use crate::reader::Reader;
use crate::received::read_received;
use crate::{BUDGET_MAX, PARENTS_MAX};
use bag_value::Val;
use context_model::Form;
use field_table::Table;
use field_writes::read_write;
use graph_lines::NamedAct;
use outside::{Memory, OrMemory};
use recorded_graph::{Act, Places, Step};
use std::alloc::Global;

/// The numbers of steps as those of places.
fn places_of(alloc: Global, numbers: &[u64]) -> Result<Places, Memory>
    ensures { IfOk result (λ places. places ≡ numbers.now) }
{
    let mut places = Places::new(alloc);
    for number in numbers {
        places.push(*number as usize)?;
    }
    Ok(places)
}

/// The value that a text writes to a slot, in the form.
fn read_value(
    alloc: Global,
    table: &Table,
    form: Form,
    slot: usize,
    write: &str,
) -> Result<Val, OrMemory<LineFault>>
    requires { slot < length (slots_of table.now) }
    ensures ok { IfOk result (λ v. IsWriteAt table.now form slot (plain v) write.now) }
    ensures err { IfErr result (IsRefusedWrite table.now form slot write.now) }
{
    // The proof learns here that the fields make a table, so that each slot has a shape.
    let _ = table.nodes();
    let read = read_write(alloc, form, table.shape(slot), write.as_bytes())?;
    read.ok_or(GraphCode::BadValue.into())
}

impl<'a> Reader<'a> {
    /// All parents of a join must be before it.
    fn check_earlier(&self, parents: &[u64]) -> Result<(), GraphCode>
        ensures ok { OnOk result ((n : ℕ) → IsIn n parents.now → n < length self.now.steps) }
        ensures err { IfErr result (λ code. (code ≡ GraphCode.NoSuchStep)
            × ((n : ℕ) × IsIn n parents.now × (length self.now.steps ≤ n))) }
    {
        for parent in parents {
            self.earlier(*parent)?;
        }
        Ok(())
    }

    /// The number of the service at which all these steps must be.
    fn common_service(&self, parents: &[u64]) -> Result<usize, GraphCode>
        requires some { 0 < length parents.now }
        requires earlier { (n : ℕ) → IsIn n parents.now → n < length self.now.steps }
        ensures ok { IfOk result
            (λ service. (n : ℕ) → IsIn n parents.now → service_at self.now n ≡ Some service) }
        ensures err { IfErr result (λ code. (code ≡ GraphCode.WrongService)
            × ((a b : ℕ) × IsIn a parents.now × IsIn b parents.now
            × (service_at self.now a ≢ service_at self.now b))) }
    {
        let service = self.service_of(parents[0] as usize);
        for parent in parents {
            if self.service_of(*parent as usize) != service {
                return Err(GraphCode::WrongService);
            }
        }
        Ok(service)
    }

    /// `start N NAME`
    fn start(&self, service: &str) -> Result<Step, OrMemory<LineFault>>
        ensures ok { (table : Nodes)
            → IfOk result (λ step.
            IsNextStep table self.now (lines.Start service.now) (step_of step)) }
        ensures err { (table : Nodes)
            → IfErr result (IsRefusedNext table self.now (lines.Start service.now)) }
    {
        let service = self.service(service)?;
        self.check_room()?;
        Ok(Step {
            service,
            act: Act::Start,
        })
    }

    /// `recv N NAME HEX`
    fn recv(
        &self,
        alloc: Global,
        table: &Table,
        service: &str,
        hex: &str,
    ) -> Result<Step, OrMemory<LineFault>>
        ensures ok { IfOk result
            (λ step. IsNextStep table.now self.now (lines.Recv service.now hex.now)
            (step_of step)) }
        ensures err { IfErr result
            (IsRefusedNext table.now self.now (lines.Recv service.now hex.now)) }
    {
        let service = self.service(service)?;
        self.check_room()?;
        let context = read_received(alloc, table, hex.as_bytes())?;
        Ok(Step {
            service,
            act: Act::Recv(context),
        })
    }

    /// The slot of a path, which the service of a step must know.
    fn known_slot(&self, table: &Table, step: usize, path: &str) -> Result<usize, GraphCode>
        requires { step < length self.now.steps }
        ensures ok { IfOk result (λ slot. FindsKnown table.now self.now step path.now slot) }
        ensures err { IfErr result (IsRefusedPath table.now self.now step path.now) }
    {
        let slot = table.find(path).ok_or(GraphCode::NoSuchPath)?;
        let service = self.service_of(step);
        if self.graph().service(service).view.knows(slot) {
            Ok(slot)
        } else {
            Err(GraphCode::NotKnown)
        }
    }

    /// `set N PARENT PATH VALUE`
    fn set(
        &self,
        alloc: Global,
        table: &Table,
        parent: u64,
        path: &str,
        write: &str,
    ) -> Result<Step, OrMemory<LineFault>>
        ensures ok { IfOk result
            (λ step. IsNextStep table.now self.now (lines.Set parent path.now write.now)
            (step_of step)) }
        ensures err { IfErr result
            (IsRefusedNext table.now self.now (lines.Set parent path.now write.now)) }
    {
        // The proof learns here that the fields make a table, so that a path is that of one slot.
        let _ = table.nodes();
        let parent = self.earlier(parent)?;
        let slot = self.known_slot(table, parent, path)?;
        let service = self.service_of(parent);
        let form = self.form_of(service);
        let write = read_value(alloc, table, form, slot, write)?;
        self.check_room()?;
        Ok(Step {
            service,
            act: Act::Set {
                parent,
                slot,
                write,
            },
        })
    }

    /// `branch N PARENT`
    fn branch(&self, parent: u64) -> Result<Step, OrMemory<LineFault>>
        ensures ok { (table : Nodes)
            → IfOk result (λ step. IsNextStep table self.now (lines.Branch parent) (step_of step)) }
        ensures err { (table : Nodes)
            → IfErr result (IsRefusedNext table self.now (lines.Branch parent)) }
    {
        let parent = self.earlier(parent)?;
        self.check_room()?;
        Ok(Step {
            service: self.service_of(parent),
            act: Act::Branch { parent },
        })
    }

    /// `forward N PARENT NAME`
    fn forward(&self, parent: u64, service: &str) -> Result<Step, OrMemory<LineFault>>
        ensures ok { (table : Nodes)
            → IfOk result (λ step.
            IsNextStep table self.now (lines.Forward parent service.now) (step_of step)) }
        ensures err { (table : Nodes)
            → IfErr result (IsRefusedNext table self.now (lines.Forward parent service.now)) }
    {
        let parent = self.earlier(parent)?;
        let service = self.service(service)?;
        self.check_room()?;
        Ok(Step {
            service,
            act: Act::Forward { parent },
        })
    }

    /// `trim N PARENT BUDGET`
    fn trim(&self, parent: u64, budget: u64) -> Result<Step, OrMemory<LineFault>>
        ensures ok { (table : Nodes)
            → IfOk result (λ step.
            IsNextStep table self.now (lines.Trim parent budget) (step_of step)) }
        ensures err { (table : Nodes)
            → IfErr result (IsRefusedNext table self.now (lines.Trim parent budget)) }
    {
        let parent = self.earlier(parent)?;
        let service = self.service_of(parent);
        let form = self.form_of(service);
        if budget < form.least_budget() || BUDGET_MAX < budget {
            return Err(GraphCode::BudgetRange.into());
        }
        self.check_room()?;
        Ok(Step {
            service,
            act: Act::Trim { parent, budget },
        })
    }

    /// `join N PARENT [PARENT ..]`
    fn join(&self, alloc: Global, parents: &[u64]) -> Result<Step, OrMemory<LineFault>>
        requires { 0 < length parents.now }
        ensures ok { (table : Nodes)
            → IfOk result (λ step.
            IsNextStep table self.now (lines.Join parents.now) (step_of step)) }
        ensures err { (table : Nodes)
            → IfErr result (IsRefusedNext table self.now (lines.Join parents.now)) }
    {
        self.check_earlier(parents)?;
        let service = self.common_service(parents)?;
        self.check_room()?;
        if PARENTS_MAX < parents.len() {
            return Err(GraphCode::TooManyParents.into());
        }
        let parents = places_of(alloc, parents)?;
        Ok(Step {
            service,
            act: Act::Join { parents },
        })
    }

    /// The step that an act says, which is the next.
    fn next_step(
        &self,
        alloc: Global,
        table: &Table,
        act: &NamedAct<'_>,
    ) -> Result<Step, OrMemory<LineFault>>
        requires { IsSoundNamedAct (named_act_of act.now) }
        ensures ok { IfOk result
            (λ step. IsNextStep table.now self.now (named_act_of act.now) (step_of step)) }
        ensures err { IfErr result (IsRefusedNext table.now self.now (named_act_of act.now)) }
    {
        match act {
            NamedAct::Start { service } => self.start(service),
            NamedAct::Recv { service, hex } => self.recv(alloc, table, service, hex),
            NamedAct::Set {
                parent,
                path,
                write,
            } => self.set(alloc, table, *parent, path, write),
            NamedAct::Branch { parent } => self.branch(*parent),
            NamedAct::Forward { parent, service } => self.forward(*parent, service),
            NamedAct::Trim { parent, budget } => self.trim(*parent, *budget),
            NamedAct::Join { parents } => self.join(alloc, parents.as_slice()),
        }
    }

    /// The step that a line says, after the steps before it.
    pub(crate) fn read_step(
        &self,
        alloc: Global,
        table: &Table,
        number: u64,
        act: &NamedAct<'_>,
    ) -> Result<Step, OrMemory<LineFault>>
        requires { IsSoundNamedAct (named_act_of act.now) }
        ensures ok { IfOk result (λ step. IsGoodStatement table.now self.now
            (lines.Step number (named_act_of act.now)) (AddStep (step_of step))) }
        ensures err { IfErr result
            (IsRefusedStatement table.now self.now (lines.Step number (named_act_of act.now))) }
    {
        self.check_number(number)?;
        self.next_step(alloc, table, act)
    }
}
