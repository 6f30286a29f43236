//! What the arguments of a command line ask for.

ghost use Rattle.std.specs.Prelude.{◌≡◌, [], ◌∷◌, IfSome};
ghost use Rattle.std.specs.Option.{option_map};
ghost use Rattle.command_line.specs.Commands as spec;

use graph_lines::ROUNDS_MAX;
use outside::Words;
use std::num::NonZeroU32;
use text_carrier::{WIDTH_MAX, WIDTH_MIN};
use text_lines::read_decimal;

/// A command with what it is asked for. The names stay in the arguments, so it takes no memory.
///
/// A `file` is the root of a definition, and a `bag` one of its bags, whose table is meant.
#[derive(Clone, Copy, Debug)]
pub enum Command<'a> {
    /// Cut the one line's list of atoms to a budget of bytes. The least of its form is looked at
    /// when the line is read.
    Trim {
        budget: NonZeroU32,
    },
    /// Merge the contexts of all lines.
    Merge,
    /// Write the one line's context as lines of pieces of `width` bytes each, from [`WIDTH_MIN`] to
    /// [`WIDTH_MAX`].
    Carry {
        width: u32,
    },
    /// Put the context together whose pieces the lines say.
    Collect,
    /// Say how many slots the table has.
    Check {
        file: &'a str,
        bag: &'a str,
    },
    /// Print the table.
    Table {
        file: &'a str,
        bag: &'a str,
    },
    /// Print the block of the one line's context under the table.
    Decode {
        file: &'a str,
        bag: &'a str,
    },
    /// Run the graph that the lines say under the table, and print its report.
    Run {
        file: &'a str,
        bag: &'a str,
    },
    /// Do the same with the table that this file prints.
    RunTable {
        file: &'a str,
    },
    /// Do the same as [`Command::Run`], and print the report as JSON.
    RunJson {
        file: &'a str,
        bag: &'a str,
    },
    /// Run the load of `rounds` rounds, at most [`ROUNDS_MAX`].
    Load {
        rounds: u32,
    },
    /// Say whether the newer definition's table of the bag may take the place of the older one's.
    Evolve {
        old: &'a str,
        new: &'a str,
        bag: &'a str,
    },
    /// Print the certificate for the slot with this name path at the step of this number, from 0
    /// on, in the graph that the lines say.
    Why {
        file: &'a str,
        bag: &'a str,
        step: u64,
        path: &'a str,
    },
    /// Say whether the certificate that a file holds is right for the graph that the lines say.
    Verify {
        file: &'a str,
        bag: &'a str,
        certificate: &'a str,
    },
}

/// A number from 1 to 4,294,967,295, without sign or leading zero.
fn read_number(word: &str) -> Option<u32>
    ensures { result ≡ spec.positive_number_of word.now }
{
    let number = read_decimal(word.as_bytes())?;
    if number == 0 {
        return None;
    }
    u32::try_from(number).ok()
}

/// The number of a step: 1 to 10 decimal digits, without a leading zero unless it is `0`.
fn read_step(word: &str) -> Option<u64>
    ensures { result ≡ spec.step_of_word word.now }
{
    graph_lines::read_number(word)
}

/// The command that one argument asks for.
#[tactic(auto, unfolding(crate::specs::Commands::command_of))]
fn bare_command(name: &str) -> Option<Command<'static>>
    ensures { option_map spec.task_of result ≡ spec.command_of (name.now ∷ []) }
{
    match name {
        "merge" => Some(Command::Merge),
        "collect" => Some(Command::Collect),
        _ => None,
    }
}

/// The command that cuts to the budget of this argument.
fn trim_command(word: &str) -> Option<Command<'static>>
    ensures { option_map spec.task_of result
        ≡ option_map spec.trim (spec.positive_number_of word.now) }
{
    let budget = NonZeroU32::new(read_number(word)?)?;
    Some(Command::Trim { budget })
}

/// The command that carries a context in pieces of as many bytes as this argument says.
fn carry_command(word: &str) -> Option<Command<'static>>
    ensures { option_map spec.task_of result ≡ option_map spec.carry (spec.width_of word.now) }
{
    let width = read_number(word)?;
    if (width as usize) < WIDTH_MIN || WIDTH_MAX < width as usize {
        return None;
    }
    Some(Command::Carry { width })
}

/// The command that runs the load of as many rounds as this argument says.
fn load_command(word: &str) -> Option<Command<'static>>
    ensures { option_map spec.task_of result ≡ option_map spec.load (spec.rounds_of word.now) }
{
    let rounds = read_number(word)?;
    if ROUNDS_MAX < rounds {
        return None;
    }
    Some(Command::Load { rounds })
}

/// The command that an argument asks for with another.
#[tactic(auto, unfolding(crate::specs::Commands::command_of))]
fn numbered_command<'a>(name: &str, word: &'a str) -> Option<Command<'a>>
    ensures { option_map spec.task_of result ≡ spec.command_of (name.now ∷ word.now ∷ []) }
{
    match name {
        "trim" => trim_command(word),
        "carry" => carry_command(word),
        "load" => load_command(word),
        "runtable" => Some(Command::RunTable { file: word }),
        _ => None,
    }
}

/// The command that an argument asks for with a file and a bag.
#[tactic(auto, unfolding(crate::specs::Commands::command_of))]
fn definition_command<'a>(name: &str, file: &'a str, bag: &'a str) -> Option<Command<'a>>
    ensures { option_map spec.task_of result
        ≡ spec.command_of (name.now ∷ file.now ∷ bag.now ∷ []) }
{
    match name {
        "check" => Some(Command::Check { file, bag }),
        "table" => Some(Command::Table { file, bag }),
        "decode" => Some(Command::Decode { file, bag }),
        "run" => Some(Command::Run { file, bag }),
        "runjson" => Some(Command::RunJson { file, bag }),
        _ => None,
    }
}

/// The command that an argument asks for with three more: two files and a bag of both, or a file, a
/// bag and another file.
#[tactic(auto, unfolding(crate::specs::Commands::command_of))]
fn two_file_command<'a>(
    name: &str,
    file: &'a str,
    second: &'a str,
    third: &'a str,
) -> Option<Command<'a>>
    ensures { option_map spec.task_of result
        ≡ spec.command_of (name.now ∷ file.now ∷ second.now ∷ third.now ∷ []) }
{
    match name {
        "evolve" => Some(Command::Evolve {
            old: file,
            new: second,
            bag: third,
        }),
        "verify" => Some(Command::Verify {
            file,
            bag: second,
            certificate: third,
        }),
        _ => None,
    }
}

/// The command that asks for the certificate of a slot at the step whose number this argument says.
fn why_command<'a>(file: &'a str, bag: &'a str, word: &str, path: &'a str) -> Option<Command<'a>>
    ensures { option_map spec.task_of result
        ≡ option_map (λ step. spec.why file.now bag.now step path.now)
        (spec.step_of_word word.now) }
{
    let step = read_step(word)?;
    Some(Command::Why {
        file,
        bag,
        step,
        path,
    })
}

/// The command that an argument asks for with a file, a bag, a step and a path.
#[tactic(auto, unfolding(crate::specs::Commands::command_of))]
fn place_command<'a>(
    name: &str,
    file: &'a str,
    bag: &'a str,
    word: &str,
    path: &'a str,
) -> Option<Command<'a>>
    ensures { option_map spec.task_of result
        ≡ spec.command_of (name.now ∷ file.now ∷ bag.now ∷ word.now ∷ path.now ∷ []) }
{
    match name {
        "why" => why_command(file, bag, word, path),
        _ => None,
    }
}

/// The command that the arguments ask for; `None` where they have no form.
#[tactic(auto, unfolding(crate::specs::Commands::command_of))]
pub fn command_of(words: &Words) -> Option<Command<'_>>
    ensures task { option_map spec.task_of result ≡ spec.command_of words.now }
    ensures range { IfSome result (λ command. spec.IsWithinLimits (spec.task_of command)) }
{
    let name = words.get(0)?.as_str();
    match words.len() {
        1 => bare_command(name),
        2 => numbered_command(name, words.get(1)?.as_str()),
        3 => definition_command(name, words.get(1)?.as_str(), words.get(2)?.as_str()),
        4 => {
            let (file, second, third) = (words.get(1)?, words.get(2)?, words.get(3)?);
            two_file_command(name, file.as_str(), second.as_str(), third.as_str())
        }
        5 => {
            let (file, bag, step, path) = (
                words.get(1)?,
                words.get(2)?,
                words.get(3)?,
                words.get(4)?,
            );
            place_command(
                name,
                file.as_str(),
                bag.as_str(),
                step.as_str(),
                path.as_str(),
            )
        }
        _ => None,
    }
}
