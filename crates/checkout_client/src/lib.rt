//! An example of the libraries, to start from: a client that writes fields of a bag by their names,
//! and reads them after services that merge and cut what was written and know no definition.
//! `client_tests/src/checkout.rt` goes the whole way, from a definition on.
//!
//! ```rust
//! let sent = write_field(alloc, &table, "hops", "0x6e:3")?;   // none where the table has no such field, or the text is no write of it
//! let read = read_field(alloc, &table, &received, "hops")?;
//! ```
#![tactic(auto)]

ghost use Rattle.std.specs.Prelude.{IfOk, IfErr};
ghost use Rattle.std.specs.Option.{option_map};
ghost use Rattle.text_lines.specs.Answers.{IsSomeOf};
ghost use Rattle.checkout_client.specs.Writes.{SaysWrite};
ghost use Rattle.checkout_client.specs.Readings.{IsRead, IsUnreadFor};

use accessor_gen::laws::values_fit_at_slots;
use accessor_gen::{Reading, accessor};
use bag_codec::check_typed;
use field_table::Table;
use field_writes::laws::writes_are_of_their_shape;
use field_writes::read_write;
use outside::Memory;
use std::alloc::Global;
use std::error::Error;
use std::fmt;
use wire_bytes::{ByteCode, ContextFault, Form, read_context, write};

/// Why a field wasn't read.
#[derive(Clone, Copy, Debug, PartialEq, Eq)]
pub enum FieldFault {
    /// No slot of the table has the name.
    NoField,
    /// After `offset` bytes the input ceases to be a context's; `code` says why.
    NoContext { offset: usize, code: ByteCode },
    /// The atom at `place` of the context, from 0 on, isn't spelled as the type of its field says.
    /// It is the first.
    IllTyped { place: usize },
    /// There is no memory for the reading.
    Memory,
}

impl fmt::Display for FieldFault {
    ghost use Rattle.std.specs.Prelude.{Some};
    ghost use Rattle.checkout_client.specs.FaultTexts.{field_fault_text};

    ghost output = { λ fault. Some (field_fault_text fault) };

    fn fmt<W: fmt::Write>(&self, f: &mut fmt::Formatter<W>) -> fmt::Result {
        match self {
            FieldFault::NoField => write!(f, "NoField"),
            FieldFault::NoContext { offset, code } => write!(f, "offset {offset} {code}"),
            FieldFault::IllTyped { place } => write!(f, "place {place} IllTyped"),
            FieldFault::Memory => write!(f, "out of memory"),
        }
    }
}

impl Error for FieldFault {}

impl From<Memory> for FieldFault {
    ghost use Rattle.std.specs.Prelude.{◌≡◌};
    ghost use Rattle.checkout_client.specs.declared.FieldFault.TheVariants.{Memory};

    ghost from_gives = { λ _ fault. fault ≡ Memory };

    fn from(_want: Memory) -> FieldFault {
        FieldFault::Memory
    }
}

impl From<ContextFault> for FieldFault {
    ghost use Rattle.checkout_client.specs.Readings.{TellsFault};

    ghost from_gives = { TellsFault };

    fn from(fault: ContextFault) -> FieldFault {
        match fault {
            ContextFault::At { offset, code } => FieldFault::NoContext { offset, code },
            ContextFault::Memory => FieldFault::Memory,
        }
    }
}

/// The bytes, in form one, of a context that says of the field with this name what the text writes
/// to it, and nothing else. There are none where no slot has the name, or the text is no write to
/// it in form one.
pub fn write_field(
    alloc: Global,
    table: &Table,
    name: &str,
    text: &str,
) -> Result<Option<Vec<u8>>, Memory>
    ensures { IfOk result
        (λ sent. IsSomeOf (SaysWrite table.now name.now text.now)
        (option_map (λ bytes. bytes.items) sent)) }
{
    // These do nothing when they run: they tell the prover that what was read as a write fits its
    // slot.
    writes_are_of_their_shape();
    values_fit_at_slots();
    let Some(field) = accessor(alloc, table, name)? else {
        return Ok(None);
    };
    // The text is read as the type of the field says: `7` for a number, `"spring"` for a set of
    // strings.
    let Some(value) = read_write(alloc, Form::One, field.shape(table), text.as_bytes())? else {
        return Ok(None);
    };
    let context = field.write(alloc, table, &value)?;
    Ok(Some(write(alloc, Form::One, context.list())?))
}

/// What the bytes of a context say of the field with this name, and whether that is whole. The name
/// is looked up first, then the bytes are read, and then their atoms' types are checked.
pub fn read_field(
    alloc: Global,
    table: &Table,
    bytes: &[u8],
    name: &str,
) -> Result<Reading, FieldFault>
    ensures read { IfOk result (IsRead table.now bytes.now name.now) }
    ensures refused { IfErr result (IsUnreadFor table.now bytes.now name.now) }
{
    let field = accessor(alloc, table, name)?.ok_or(FieldFault::NoField)?;
    let context = read_context(alloc, bytes)?;
    // Nobody on the way knows the types, so the reader looks whether each atom is spelled as its
    // table says.
    check_typed(table, &context).map_err(|place| FieldFault::IllTyped { place })?;
    Ok(field.get(alloc, table, &context)?)
}
