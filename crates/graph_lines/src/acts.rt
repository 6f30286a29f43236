//! What happens in a step, from the words after its number.

ghost use Rattle.std.specs.Prelude.{codes, IfOk};
ghost use Rattle.std.specs.Option.{option_map};
ghost use Rattle.graph_lines.specs.Reading.{IsActText};
ghost use Rattle.graph_lines.specs.Acts.{named_act_of};
ghost use Rattle.text_lines.specs.Answers.{IsSomeOf};

use crate::NamedAct;
use crate::numbers::{read_number, read_numbers, take_number};
use crate::words::{take_name, take_path};
use outside::Memory;
use std::alloc::Global;
use text_lines::{is_one_word, is_word};

/// `start N NAME`
fn read_start(text: &str) -> Option<NamedAct<'_>>
    ensures { IsSomeOf (IsActText (codes "start") text.now) (option_map named_act_of result) }
{
    if is_word(text.as_bytes()) {
        Some(NamedAct::Start { service: text })
    } else {
        None
    }
}

/// `recv N NAME HEX`
fn read_recv(text: &str) -> Option<NamedAct<'_>>
    ensures { IsSomeOf (IsActText (codes "recv") text.now) (option_map named_act_of result) }
{
    let (service, hex) = take_name(text)?;
    if is_one_word(hex.as_bytes()) {
        Some(NamedAct::Recv { service, hex })
    } else {
        None
    }
}

/// `set N PARENT PATH VALUE`
fn read_set(text: &str) -> Option<NamedAct<'_>>
    ensures { IsSomeOf (IsActText (codes "set") text.now) (option_map named_act_of result) }
{
    let (parent, rest) = take_number(text)?;
    let (path, write) = take_path(rest)?;
    if write.is_empty() {
        None
    } else {
        Some(NamedAct::Set {
            parent,
            path,
            write,
        })
    }
}

/// `branch N PARENT`
fn read_branch(text: &str) -> Option<NamedAct<'_>>
    ensures { IsSomeOf (IsActText (codes "branch") text.now) (option_map named_act_of result) }
{
    let parent = read_number(text)?;
    Some(NamedAct::Branch { parent })
}

/// `forward N PARENT NAME`
fn read_forward(text: &str) -> Option<NamedAct<'_>>
    ensures { IsSomeOf (IsActText (codes "forward") text.now) (option_map named_act_of result) }
{
    let (parent, service) = take_number(text)?;
    if is_word(service.as_bytes()) {
        Some(NamedAct::Forward { parent, service })
    } else {
        None
    }
}

/// `trim N PARENT BUDGET`
fn read_trim(text: &str) -> Option<NamedAct<'_>>
    ensures { IsSomeOf (IsActText (codes "trim") text.now) (option_map named_act_of result) }
{
    let (parent, rest) = take_number(text)?;
    let budget = read_number(rest)?;
    Some(NamedAct::Trim { parent, budget })
}

/// `join N PARENT [PARENT ..]`
fn read_join(alloc: Global, text: &str) -> Result<Option<NamedAct<'_>>, Memory>
    ensures { IfOk result
        (λ read. IsSomeOf (IsActText (codes "join") text.now) (option_map named_act_of read)) }
{
    match read_numbers(alloc, text)? {
        Some(parents) => Ok(Some(NamedAct::Join { parents })),
        None => Ok(None),
    }
}

/// The act of this name whose words after the step's number are the text.
pub(crate) fn read_act<'a>(
    alloc: Global,
    name: &str,
    text: &'a str,
) -> Result<Option<NamedAct<'a>>, Memory>
    ensures { IfOk result
        (λ read. IsSomeOf (IsActText name.now text.now) (option_map named_act_of read)) }
{
    match name {
        "start" => Ok(read_start(text)),
        "recv" => Ok(read_recv(text)),
        "set" => Ok(read_set(text)),
        "branch" => Ok(read_branch(text)),
        "forward" => Ok(read_forward(text)),
        "trim" => Ok(read_trim(text)),
        "join" => read_join(alloc, text),
        _ => Ok(None),
    }
}
