//! What a line says, from its words.

ghost use Rattle.std.specs.Prelude.{ℕ, codes, IfOk, MatchOption};
ghost use Rattle.std.specs.Option.{option_map};
ghost use Rattle.graph_lines.specs.Statements as plain;
ghost use Rattle.graph_lines.specs.Forms.{service_word, HasStatementForm};
ghost use Rattle.graph_lines.specs.Reading.{IsViewText, IsRestText, IsStatementText};
ghost use Rattle.graph_lines.specs.Acts.{named_view_of, statement_of};
ghost use Rattle.text_lines.specs.Answers.{IsSomeOf};

use crate::acts::read_act;
use crate::numbers::{read_number, take_number};
use crate::words::{read_paths, take_name};
use crate::{NamedView, Statement};
use context_model::Form;
use outside::Memory;
use std::alloc::Global;
use text_lines::cut_str;

/// The view of a service: `all`, `none` or `only PATH [PATH ..]`
fn read_view(alloc: Global, text: &str) -> Result<Option<NamedView<'_>>, Memory>
    ensures { IfOk result (λ read. IsSomeOf (IsViewText text.now) (option_map named_view_of read)) }
{
    let Some((word, rest)) = cut_str(text) else {
        return Ok(match text {
            "all" => Some(NamedView::All),
            "none" => Some(NamedView::Nothing),
            _ => None,
        });
    };
    if word != "only" {
        return Ok(None);
    }
    match read_paths(alloc, rest)? {
        Some(paths) => Ok(Some(NamedView::Only(paths))),
        None => Ok(None),
    }
}

/// What follows the word for a service of this form: `NAME` and a view
fn read_service(alloc: Global, form: Form, text: &str) -> Result<Option<Statement<'_>>, Memory>
    ensures { IfOk result
        (λ read. IsSomeOf (IsRestText (service_word form) text.now)
        (option_map statement_of read)) }
{
    let Some((name, rest)) = take_name(text) else {
        return Ok(None);
    };
    match read_view(alloc, rest)? {
        Some(view) => Ok(Some(Statement::Service { form, name, view })),
        None => Ok(None),
    }
}

/// `show STEP`
fn read_show(text: &str) -> Option<Statement<'_>>
    ensures { IsSomeOf (IsRestText (codes "show") text.now) (option_map statement_of result) }
{
    let step = read_number(text)?;
    Some(Statement::Show { step })
}

/// A step with an act of this name.
fn read_step<'a>(alloc: Global, name: &str, text: &'a str) -> Result<Option<Statement<'a>>, Memory>
    ensures { IfOk result (λ read. MatchOption read
        ((number : ℕ) (act : plain.NamedAct) → IsRestText name.now text.now (plain.Step number act)
        → ⊥)
        (λ statement. IsRestText name.now text.now (statement_of statement))) }
{
    let Some((number, rest)) = take_number(text) else {
        return Ok(None);
    };
    match read_act(alloc, name, rest)? {
        Some(act) => Ok(Some(Statement::Step { number, act })),
        None => Ok(None),
    }
}

/// What a line of characters says, or none where it has no form.
fn read_words(alloc: Global, text: &str) -> Result<Option<Statement<'_>>, Memory>
    ensures { IfOk result
        (λ read. IsSomeOf (IsStatementText text.now) (option_map statement_of read)) }
{
    let Some((first, rest)) = cut_str(text) else {
        return Ok(None);
    };
    match first {
        "service" => read_service(alloc, Form::One, rest),
        "service2" => read_service(alloc, Form::Two, rest),
        "show" => Ok(read_show(rest)),
        _ => read_step(alloc, first, rest),
    }
}

/// What a line of a recorded graph says, or none where it has no form.
pub fn read_statement<'a>(alloc: Global, text: &'a [u8]) -> Result<Option<Statement<'a>>, Memory>
    ensures { IfOk result (λ read. MatchOption read
        ((statement : plain.Statement) → HasStatementForm text.now statement → ⊥)
        (λ statement. HasStatementForm text.now (statement_of statement))) }
{
    match str::from_utf8(text) {
        Ok(line) => read_words(alloc, line),
        Err(_) => Ok(None),
    }
}
