//! A list from its bytes, or their first fault.

ghost use Rattle.std.specs.Prelude.{◌≡◌, ◌+◌, ◌≤◌, length, take, drop, Some, IfOk, IfErr, OnOk};
ghost use Rattle.context_model.specs.declared.Form.TheVariants.{Two};
ghost use Rattle.context_model.specs.Atoms.{AreAtoms};
ghost use Rattle.context_model.specs.Framing.{base_128, length_code, most, form_of, AreWithin, IsBytesOf};
ghost use Rattle.context_model.specs.WireFault.{wire_code, IsUnframed, ReadsOneWay};
ghost use Rattle.atom_list.specs.Scan.{with_part};
ghost use Rattle.wire_bytes.specs.Reading.{code_of, IsWireRefusalOf, IsHeadFaultOf, ReadsAny, ReadsUpTo, StopsAt};

use crate::heads::{check_head, form_of, without_head};
use crate::lengths::{front_length, front_varint};
use atom_list::{AtomList, Scan};
use context_model::{Form, LENGTH_MAX};
use outside::{ATOM_MAX, Memory};
use std::alloc::Global;
use std::error::Error;
use std::fmt;

/// What is wrong where bytes cease to be those of a list. At one place the first of these counts.
#[derive(Clone, Copy, Debug, PartialEq, Eq)]
pub enum WireCode {
    /// The input ends inside the head or a length.
    CutLength,
    /// The number in the head isn't that of the bytes after it.
    BadCount,
    /// A length has more bytes than it needs.
    LongForm,
    /// A length is above the form's limit, [`LENGTH_MAX`] or [`ATOM_MAX`], or in form one a fourth
    /// byte of it would follow.
    AtomTooLong,
    /// Fewer bytes follow than a length says.
    CutBody,
}

/// Why bytes weren't read.
#[derive(Clone, Copy, Debug, PartialEq, Eq)]
pub enum WireFault {
    /// The head is wrong at `offset`, or the bytes from there on begin with no atom, and those
    /// between the head and there are the frames of a list.
    At { offset: usize, code: WireCode },
    /// There is no memory for the list.
    Memory,
}

impl fmt::Display for WireCode {
    ghost use Rattle.std.specs.Prelude.{Some};
    ghost use Rattle.context_model.specs.ByteCodes.{code_name};
    ghost use Rattle.wire_bytes.specs.Reading.{code_of};

    ghost output = { λ code. Some (code_name (code_of code)) };

    fn fmt<W: fmt::Write>(&self, f: &mut fmt::Formatter<W>) -> fmt::Result {
        match self {
            WireCode::CutLength => write!(f, "CutLength"),
            WireCode::BadCount => write!(f, "BadCount"),
            WireCode::AtomTooLong => write!(f, "AtomTooLong"),
            WireCode::LongForm => write!(f, "LongForm"),
            WireCode::CutBody => write!(f, "CutBody"),
        }
    }
}

impl Error for WireCode {}

impl fmt::Display for WireFault {
    ghost use Rattle.std.specs.Prelude.{Some};
    ghost use Rattle.wire_bytes.specs.FaultTexts.{wire_fault_text};

    ghost output = { λ fault. Some (wire_fault_text fault) };

    fn fmt<W: fmt::Write>(&self, f: &mut fmt::Formatter<W>) -> fmt::Result {
        match self {
            WireFault::At { offset, code } => write!(f, "offset {offset} {code}"),
            WireFault::Memory => write!(f, "out of memory"),
        }
    }
}

impl Error for WireFault {}

impl From<Memory> for WireFault {
    ghost use Rattle.std.specs.Prelude.{◌≡◌};
    ghost use Rattle.wire_bytes.specs.declared.reading.WireFault.TheVariants.{Memory};

    ghost from_gives = { λ _ fault. fault ≡ Memory };

    fn from(_want: Memory) -> WireFault {
        WireFault::Memory
    }
}

/// How many bytes the first length has in this form, and how many the atom after it has, or what is
/// wrong with them. It takes no memory, and looks at no byte of the atom.
pub fn first_frame(form: Form, bytes: &[u8]) -> Result<(usize, usize), WireCode>
    ensures within { IfOk result (λ found. found.0 + found.1 ≤ length bytes.now) }
    ensures short { IfOk result (λ found. found.1 ≤ most form) }
    ensures code { IfOk result (λ found. take found.0 bytes.now ≡ length_code form found.1) }
    ensures fault { IfErr result (λ code. IsUnframed form bytes.now (code_of code)) }
{
    match form {
        Form::One => front_one(bytes),
        Form::Two => front_two(bytes),
    }
}

/// The same in form one.
fn front_one(bytes: &[u8]) -> Result<(usize, usize), WireCode>
    ensures within { IfOk result (λ found. found.0 + found.1 ≤ length bytes.now) }
    ensures short { IfOk result (λ found. found.1 ≤ LENGTH_MAX) }
    ensures code { IfOk result (λ found. take found.0 bytes.now ≡ base_128 found.1) }
    ensures fault { IfErr result (λ code. wire_code bytes.now ≡ Some (code_of code)) }
{
    let (len, rest) = front_length(bytes)?;
    if rest.len() < len {
        return Err(WireCode::CutBody);
    }
    Ok((bytes.len() - rest.len(), len))
}

/// The same in form two.
fn front_two(bytes: &[u8]) -> Result<(usize, usize), WireCode>
    ensures within { IfOk result (λ found. found.0 + found.1 ≤ length bytes.now) }
    ensures short { IfOk result (λ found. found.1 ≤ ATOM_MAX) }
    ensures code { IfOk result (λ found. take found.0 bytes.now ≡ length_code Two found.1) }
    ensures fault { IfErr result (λ code. IsUnframed Two bytes.now (code_of code)) }
{
    let (len, skip) = front_varint(bytes)?;
    if bytes.len() - skip < len {
        return Err(WireCode::CutBody);
    }
    Ok((skip, len))
}

/// Notes the atom that comes next: `skip` bytes of a length in this form, and `len` bytes of the
/// atom.
fn note(scan: &mut Scan, form: Form, skip: usize, len: usize) -> Result<(), Memory>
    requires within { skip + len ≤ length scan.old.rest }
    requires short { len ≤ most form }
    requires framed { take skip scan.old.rest ≡ length_code form len }
    ensures atoms { OnOk result (scan.new.atoms ≡ with_part scan.old skip len) }
    ensures rest { OnOk result (scan.new.rest ≡ drop (skip + len) scan.old.rest) }
{
    match form {
        Form::One => scan.note(skip, len),
        Form::Two => note_respelled(scan, skip, len),
    }
}

/// The same in form two: a list keeps its lengths in base 128, which has as many bytes there.
fn note_respelled(scan: &mut Scan, skip: usize, len: usize) -> Result<(), Memory>
    requires within { skip + len ≤ length scan.old.rest }
    requires short { len ≤ ATOM_MAX }
    requires framed { take skip scan.old.rest ≡ length_code Two len }
    ensures atoms { OnOk result (scan.new.atoms ≡ with_part scan.old skip len) }
    ensures rest { OnOk result (scan.new.rest ≡ drop (skip + len) scan.old.rest) }
{
    scan.respell(skip, len);
    scan.note(skip, len)?;
    Ok(())
}

/// The list that the bytes begin with, as far as it goes, and what is wrong after it.
#[derive(Drop)]
pub(crate) struct FrontList {
    /// The form that the bytes are read in.
    pub(crate) form: Form,
    pub(crate) list: AtomList,
    /// How many bytes after the head the list ends, and what is wrong there, unless the bytes end
    /// there.
    pub(crate) fault: Option<(usize, WireCode)>,
}

/// Reads frames for as long as there are any. The bytes become the buffer of the list.
fn read_frames(alloc: Global, form: Form, bytes: Vec<u8>) -> Result<FrontList, Memory>
    ensures form { IfOk result (λ front. front.form ≡ form) }
    ensures within { IfOk result (λ front. AreWithin form front.list) }
    ensures stops { IfOk result (λ front. StopsAt form bytes.items front.list front.fault) }
{
    let mut scan = Scan::over(alloc, bytes)?;
    while !scan.rest().is_empty() {
        match first_frame(form, scan.rest()) {
            Ok((skip, len)) => note(&mut scan, form, skip, len)?,
            Err(code) => {
                let fault = Some((scan.offset(), code));
                let list = scan.finish()?;
                return Ok(FrontList { form, list, fault });
            }
        }
    }
    let list = scan.finish()?;
    let fault = None;
    Ok(FrontList { form, list, fault })
}

/// Looks at the head, and reads atoms after it for as long as there are any. The bytes become the
/// buffer of the list.
pub(crate) fn read_front(alloc: Global, bytes: Vec<u8>) -> Result<FrontList, WireFault>
    ensures form { IfOk result (λ front. front.form ≡ form_of bytes.items) }
    ensures reads { IfOk result (λ front. ReadsUpTo bytes.items front.list front.fault) }
    ensures fault { IfErr result (IsHeadFaultOf bytes.items) }
{
    let form = form_of(&bytes);
    if let Err(code) = check_head(form, &bytes) {
        return Err(WireFault::At { offset: 4, code });
    }
    Ok(read_frames(alloc, form, without_head(form, bytes))?)
}

/// The list whose bytes these are, in the form that they begin with. They become its buffer and
/// aren't copied. The refusal is the first fault: what is wrong with the head, at its number, or
/// where the longest prefix after it that is the frames of a list ends.
pub fn read_owned(alloc: Global, bytes: Vec<u8>) -> Result<AtomList, WireFault>
    ensures found { IfOk result (λ list. IsBytesOf list bytes.items) }
    ensures atoms { IfOk result AreAtoms }
    ensures fault { IfErr result (IsWireRefusalOf bytes.items) }
    ensures only { ReadsAny bytes.items result }
{
    let FrontList { form, list, fault } = read_front(alloc, bytes)?;
    match fault {
        None => Ok(list),
        Some((behind, code)) => Err(WireFault::At {
            offset: form.head_len() + behind,
            code,
        }),
    }
}

/// The list whose bytes these are, as [`read_owned`] reads it from a copy of them.
pub fn read(alloc: Global, bytes: &[u8]) -> Result<AtomList, WireFault>
    ensures found { IfOk result (λ list. IsBytesOf list bytes.now) }
    ensures atoms { IfOk result AreAtoms }
    ensures fault { IfErr result (IsWireRefusalOf bytes.now) }
    ensures only { ReadsAny bytes.now result }
{
    let bytes = Vec::from_slice(alloc, bytes).map_err(|_| WireFault::Memory)?;
    read_owned(alloc, bytes)
}

/// Bytes are those of at most one list, have at most one first fault, and never both; and the bytes
/// of a list, whatever form was asked for, are those of the list in the form that they are read in.
pub fn reads_one_way()
    ensures { ReadsOneWay }
{}
