//! What a service needs of the libraries, and a client, under one name.
//!
//! A service that knows no definition merges what two branches brought, and sends it on within a
//! budget of bytes. It takes no memory:
//!
//! ```rust
//! let size = forward_bytes(Form::One, &ours, &theirs, 512, &mut buffer)?;   // or the first fault, with its input and offset
//! channel.send(&buffer[..size]);
//! ```
//!
//! A client has a table of the fields, writes one by its name, and reads it after such services:
//!
//! ```rust
//! let table = compile(alloc, &mut library, "checkout.bdl", "Checkout")?;
//! let field = accessor(alloc, &table, "hops")?.ok_or(NoField)?;
//! let value = read_write(alloc, Form::One, field.shape(&table), b"0x6e:3")?.ok_or(NoWrite)?;
//! let context = field.write(alloc, &table, &value)?;     // says this of the field, and nothing else
//!
//! check_typed(&table, &received)?;                       // or the place of the first atom that is ill typed
//! let read = field.get(alloc, &table, &received)?;       // the value, and whether it is exact
//! ```
//!
//! A service that knows a table takes the step of the model: what it received and what it writes
//! become one context, in normal form and within the budget. Of that it lets out what others may
//! see, and it reads values in the bytes themselves:
//!
//! ```rust
//! let sent = update(alloc, Form::One, &table, vec![in alloc; received, context]?, 512)?;
//! let seen = keep(alloc, Others::Cut, &public, &sent)?;  // what is at the slots of this table
//!
//! let ours = [Input { bytes: &received }];               // the same from bytes to bytes, with lines of writes
//! let size = update_into(alloc, Form::One, &printed, &ours, b"hops \"n\":3\n", 512, &mut room)?;
//! let (form, slots) = places_into(alloc, &printed, &room[..size], &mut places)?;
//! ```
//!
//! The crates `forwarding` and `checkout_client` are these examples whole, with their contracts.
//! Who writes contracts of their own lists the crates whose definitions they cite beside this one.
#![tactic(auto)]

pub use accessor_gen::{Accessor, Reading, accessor, accessors};
pub use atom_list::{AtomList, Context};
pub use bag_codec::{
    Entries, Entry, ScalarSet, Span, State, Val, Vals, can_encode, check_typed, decode,
    decode_slot, encode, normal, spans_of, state_of,
};
pub use bdl_check::{DefCode, DefFault, compile};
pub use byte_calls::Span as Input;
pub use byte_forward::{ByteRefusal, forward_bytes, merge_bytes, trim_bytes};
pub use byte_frames::{ByteFault, check_bytes};
pub use counter_type::{Counts, Lattice};
pub use def_evolve::{Change, Part, Verdict, evolve};
pub use field_table::{Shape, Slot, SlotSet, Slots, Table, View};
pub use field_writes::read_write;
pub use keep_calls::{KeepRefusal, Others, keep, keep_into, keep_under};
pub use lex_merge::{merge, merge_many};
pub use outside::{Library, Memory, MemoryLibrary, Octets, Text};
pub use overflow_trim::trim_context;
pub use place_calls::{
    EXACT, ILL_TYPED, PARTIAL, Place, PlaceRefusal, chosen_places_into, chosen_places_under,
    places_into, places_under,
};
pub use report_text::{block, value_text};
pub use scalar_types::{Codec, Scalar, ScalarKind, ScalarWord};
pub use set_map_types::{Greatest, Least, MapOf, SetOf};
pub use step_calls::{StepRefusal, WriteCode, update, update_into, update_under};
pub use table_text::{TableCode, TableFault, print_table, read_table};
pub use text_carrier::{CarryCode, CarryFault, carry, collect};
pub use wire_bytes::{
    ByteCode, ContextFault, Form, form_of, read_context, read_context_owned, size, write,
};
