//! The choices of a row.

ghost use Rattle.std.specs.Prelude.{◌≤◌, IfOk};
ghost use Rattle.context_model.specs.Framing.{least_budget};

use header_calls::Absent;
use keep_calls::Others;
use piece_calls::Literal;
use row_files::{Reason, Row, RowFault};
use table_calls::ReportForm;
use wire_bytes::Form;

/// The form that the row asks for; form one where it asks for none.
pub fn form_of(row: Row<'_>) -> Result<Form, RowFault> {
    let Some(field) = row.field("form") else {
        return Ok(Form::One);
    };
    match field.text()? {
        "one" => Ok(Form::One),
        "two" => Ok(Form::Two),
        _ => Err(field.fault(Reason::Word)),
    }
}

/// The budget of the row; the greatest where it has none. It can't be below the form's least one.
pub fn budget_of(row: Row<'_>, form: Form) -> Result<u64, RowFault>
    ensures { IfOk result (λ budget. least_budget form ≤ budget) }
{
    let budget = row.number_or("budget", u64::MAX)?;
    if budget < form.least_budget() {
        return Err(row.needed("budget")?.fault(Reason::Number));
    }
    Ok(budget)
}

/// What becomes of what isn't kept.
pub fn others_of(row: Row<'_>) -> Result<Others, RowFault> {
    let field = row.needed("others")?;
    match field.text()? {
        "cut" => Ok(Others::Cut),
        "unsaid" => Ok(Others::Unsaid),
        _ => Err(field.fault(Reason::Word)),
    }
}

/// What stands for a header that isn't there.
pub fn absent_of(row: Row<'_>) -> Result<Absent, RowFault> {
    let field = row.needed("absent")?;
    match field.text()? {
        "empty" => Ok(Absent::Empty),
        "lost" => Ok(Absent::Lost),
        _ => Err(field.fault(Reason::Word)),
    }
}

/// The form of a report.
pub fn report_of(row: Row<'_>) -> Result<ReportForm, RowFault> {
    let field = row.needed("as")?;
    match field.text()? {
        "text" => Ok(ReportForm::Text),
        "json" => Ok(ReportForm::Json),
        _ => Err(field.fault(Reason::Word)),
    }
}

/// What bytes are written as.
pub fn literal_of(row: Row<'_>) -> Result<Literal, RowFault> {
    let field = row.needed("literal")?;
    match field.text()? {
        "string" => Ok(Literal::String),
        "bytes" => Ok(Literal::Bytes),
        _ => Err(field.fault(Reason::Word)),
    }
}
