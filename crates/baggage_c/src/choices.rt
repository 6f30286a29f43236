//! Forms and other choices by their numbers.

ghost use Rattle.std.specs.Prelude.{◌≡◌};
ghost use Rattle.baggage_c.specs.Choices.{form_numbered, form_within, literal_numbered, others_numbered, report_numbered};

use crate::answers::{BUDGET, CHOICE, FORM};
use keep_calls::Others;
use piece_calls::Literal;
use table_calls::ReportForm;
use wire_bytes::Form;

/// The form that has this number in `enum baggage_form`. `FORM` is the only refusal.
pub(crate) fn form_numbered(number: u32) -> Result<Form, u32>
    ensures { result ≡ form_numbered number }
{
    match number {
        1 => Ok(Form::One),
        2 => Ok(Form::Two),
        _ => Err(FORM),
    }
}

/// The form that has this number, in which a list can be cut to `budget` bytes. The refusal is
/// `FORM` or `BUDGET`.
pub(crate) fn form_within(number: u32, budget: u64) -> Result<Form, u32>
    ensures { result ≡ form_within number budget }
{
    let form = form_numbered(number)?;
    if budget < form.least_budget() {
        return Err(BUDGET);
    }
    Ok(form)
}

/// What becomes of what isn't kept, by its number in `enum baggage_others`. `CHOICE` is the only
/// refusal.
pub(crate) fn others_numbered(number: u32) -> Result<Others, u32>
    ensures { result ≡ others_numbered number }
{
    match number {
        1 => Ok(Others::Cut),
        2 => Ok(Others::Unsaid),
        _ => Err(CHOICE),
    }
}

/// The form of a report, by its number in `enum baggage_as`. `CHOICE` is the only refusal.
pub(crate) fn report_numbered(number: u32) -> Result<ReportForm, u32>
    ensures { result ≡ report_numbered number }
{
    match number {
        1 => Ok(ReportForm::Text),
        2 => Ok(ReportForm::Json),
        _ => Err(CHOICE),
    }
}

/// What bytes are written as, by its number in `enum baggage_literal`. `CHOICE` is the only
/// refusal.
pub(crate) fn literal_numbered(number: u32) -> Result<Literal, u32>
    ensures { result ≡ literal_numbered number }
{
    match number {
        1 => Ok(Literal::String),
        2 => Ok(Literal::Bytes),
        _ => Err(CHOICE),
    }
}
