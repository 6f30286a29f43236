//! The graph of a text.

ghost use Rattle.std.specs.Prelude.{◌≡◌, IfOk, IfErr};
ghost use Rattle.trace_model.specs.Graphs.{IsOfTable};
ghost use Rattle.graph_text.specs.Additions.{Addition, GrowsTo, IsRefusedStatement, with_addition};
ghost use Rattle.graph_lines.specs.Forms.{IsSoundStatement};
ghost use Rattle.graph_lines.specs.Statements as lines;
ghost use Rattle.graph_lines.specs.Acts.{named_view_of, named_act_of, statement_of};
ghost use Rattle.bag_model.specs.Shapes.{Nodes};
ghost use Rattle.graph_text.specs.Reading.{SaysAddition, IsRefusedText, IsGraphOf, IsGraphRefusalOf};

use crate::faults::{GraphCode, GraphFault, LineFault};
use crate::laws::texts_give_recorded_graphs;
use crate::reader::Reader;
use crate::views::read_view;
use context_model::Form;
use field_table::Table;
use graph_lines::{NamedAct, NamedView, Statement, read_statement};
use outside::{OrMemory, Text};
use recorded_graph::{Graph, Service};
use std::alloc::Global;
use text_lines::lines_of;

impl<'a> Reader<'a> {
    /// What was said, with the service that a line declares.
    fn read_service(
        self,
        alloc: Global,
        table: &Table,
        form: Form,
        name: &'a str,
        view: &NamedView<'_>,
    ) -> Result<Reader<'a>, OrMemory<LineFault>>
        ensures ok { IfOk result
            (GrowsTo table.now self.entry (lines.Service form name.now (named_view_of view.now))) }
        ensures err { IfErr result
            (IsRefusedStatement table.now self.entry
            (lines.Service form name.now (named_view_of view.now))) }
    {
        self.check_new(name)?;
        let view = read_view(alloc, table, view)?;
        let service = Service {
            name: Text::of(alloc, name)?,
            form,
            view,
        };
        let reader = self.with_service(name, service)?;
        Ok(reader)
    }

    /// What was said, with the step that a line says.
    fn read_numbered(
        self,
        alloc: Global,
        table: &Table,
        number: u64,
        act: &NamedAct<'_>,
    ) -> Result<Reader<'a>, OrMemory<LineFault>>
        requires { IsSoundStatement (lines.Step number (named_act_of act.now)) }
        ensures ok { IfOk result
            (GrowsTo table.now self.entry (lines.Step number (named_act_of act.now))) }
        ensures err { IfErr result
            (IsRefusedStatement table.now self.entry (lines.Step number (named_act_of act.now))) }
    {
        // The proof learns here that the graph is sound.
        self.graph().known();
        let step = self.read_step(alloc, table, number, act)?;
        let reader = self.with_step(step)?;
        Ok(reader)
    }

    /// What was said, with the step that a line shows.
    fn read_show(self, step: u64) -> Result<Reader<'a>, OrMemory<LineFault>>
        ensures ok { (table : Nodes) → IfOk result (GrowsTo table self.entry (lines.Show step)) }
        ensures err { (table : Nodes)
            → IfErr result (IsRefusedStatement table self.entry (lines.Show step)) }
    {
        let step = self.earlier(step)?;
        let reader = self.with_show(step)?;
        Ok(reader)
    }

    /// What was said, with what a line of this form says.
    fn read(
        self,
        alloc: Global,
        table: &Table,
        line: Statement<'a>,
    ) -> Result<Reader<'a>, OrMemory<LineFault>>
        requires { IsSoundStatement (statement_of line) }
        ensures ok { IfOk result (GrowsTo table.now self.entry (statement_of line.entry)) }
        ensures err { IfErr result
            (IsRefusedStatement table.now self.entry (statement_of line.entry)) }
    {
        match line {
            Statement::Service { form, name, view } => {
                self.read_service(alloc, table, form, name, &view)
            }
            Statement::Step { number, act } => self.read_numbered(alloc, table, number, &act),
            Statement::Show { step } => self.read_show(step),
        }
    }

    /// What was said, with what a line says.
    fn read_line(
        self,
        alloc: Global,
        table: &Table,
        text: &'a [u8],
    ) -> Result<Reader<'a>, OrMemory<LineFault>>
        ensures ok { IfOk result
            (λ reader. (addition : Addition) × SaysAddition table.now self.entry text.now addition
            × (reader ≡ with_addition self.entry addition)) }
        ensures err { IfErr result (IsRefusedText table.now self.entry text.now) }
    {
        let Some(line) = read_statement(alloc, text)? else {
            return Err(OrMemory::Fault(LineFault::Code(GraphCode::Form)));
        };
        let reader = self.read(alloc, table, line)?;
        Ok(reader)
    }
}

/// The graph that the lines of a text say, one after another.
fn read_lines(alloc: Global, table: &Table, text: &[u8]) -> Result<Graph, GraphFault>
    ensures graph { IfOk result (IsGraphOf table.now text.now) }
    ensures fault { IfErr result (IsGraphRefusalOf table.now text.now) }
{
    let mut reader = Reader::new(alloc);
    for line in lines_of(text) {
        reader = match reader.read_line(alloc, table, line.text) {
            Ok(reader) => reader,
            Err(refusal) => return Err(GraphFault::of_line(line.number, refusal)),
        };
    }
    Ok(reader.into_graph())
}

/// The graph that a text says under a table, or what is wrong with its first bad line.
///
/// Lines end at line feeds; a carriage return before one is dropped, and empty lines and those that
/// begin with `#` are skipped. See `docs/FORMATS.md` for the forms of lines and the rules in their
/// order.
pub fn read_graph(alloc: Global, table: &Table, text: &[u8]) -> Result<Graph, GraphFault>
    ensures graph { IfOk result (IsGraphOf table.now text.now) }
    ensures table { IfOk result (IsOfTable table.now) }
    ensures fault { IfErr result (IsGraphRefusalOf table.now text.now) }
{
    // The proof learns here that the fields make a table, and that a graph that a text says under
    // it is one of the table.
    let _ = table.nodes();
    texts_give_recorded_graphs();
    let graph = read_lines(alloc, table, text)?;
    Ok(graph)
}
