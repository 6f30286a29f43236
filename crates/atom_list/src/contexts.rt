//! Contexts: lists of atoms that are well formed.

ghost use Rattle.std.specs.Prelude.{◌≡◌, ◌<◌, ◌≤◌, [], ◌∷◌, ◌++◌, length, take, IfOk, IfErr};
ghost use Rattle.std.specs.Ordering.{nat_cmp};
ghost use Rattle.context_model.specs.Orders.{Rises};
ghost use Rattle.context_model.specs.WellFormed.{IsWellFormed};
ghost use Rattle.context_model.specs.WithoutData.{AreDataPlaces, without};
ghost use Rattle.context_model.specs.ShapeFault.{IsFirstShapeFault};
ghost use Rattle.atom_list.specs.Contexts.{shape_fault_code_of};

use crate::lists::AtomList;
use crate::shape_faults::OpenHeaders;
use outside::Memory;
use std::alloc::Global;
use std::error::Error;
use std::fmt;
use std::marker::Model;

/// What is wrong where a list ceases to be well formed. At one place the first of these counts.
#[derive(Clone, Copy, Debug, PartialEq, Eq)]
pub enum ShapeFault {
    /// No kind of atom begins with the atom's first byte.
    BadPrefix,
    /// What follows the first byte of an indexed header isn't exactly one varint.
    BadIndex,
    /// The level of a header is more than one above that of the last header before it, or isn't 0
    /// where there is none.
    LevelJump,
    /// The path of the atom isn't greater than that of the atom before it.
    OutOfOrder,
}

impl fmt::Display for ShapeFault {
    ghost use Rattle.std.specs.Prelude.{Some};
    ghost use Rattle.atom_list.specs.FaultTexts.{shape_fault_text};

    ghost output = { λ fault. Some (shape_fault_text fault) };

    fn fmt<W: fmt::Write>(&self, f: &mut fmt::Formatter<W>) -> fmt::Result {
        match self {
            ShapeFault::BadPrefix => write!(f, "BadPrefix"),
            ShapeFault::BadIndex => write!(f, "BadIndex"),
            ShapeFault::LevelJump => write!(f, "LevelJump"),
            ShapeFault::OutOfOrder => write!(f, "OutOfOrder"),
        }
    }
}

impl Error for ShapeFault {}

/// A context: a list of atoms each of which has a kind, whose headers go down one level at most at
/// a time, and whose paths strictly rise. Contracts see it as the list.
#[derive(Debug, Drop)]
pub struct Context {
    list: AtomList,
}

impl Model for Context {
    ghost use Rattle.std.specs.Prelude.{List, ℕ};
    ghost use Rattle.context_model.specs.WellFormed.{IsWellFormed};

    ghost Value = { List (List ℕ) };

    ghost view = { λ context. context.list };

    ghost invariant = { λ context. IsWellFormed context.list };
}

impl Context {
    /// The empty context. It takes no memory.
    pub fn empty(alloc: Global) -> Context
        ensures { result ≡ [] }
    {
        Context {
            list: AtomList::new(alloc),
        }
    }

    /// The context of a list that is known to be well formed. The list isn't looked at.
    pub fn of(list: AtomList) -> Context
        requires { IsWellFormed list }
        ensures { result ≡ list }
    {
        Context { list }
    }

    /// The context of a well-formed list, or what is first wrong with the list, at which place, and
    /// the list. It takes no memory.
    pub fn check(list: AtomList) -> Result<Context, (ShapeFault, usize, AtomList)>
        ensures ok { IfOk result (λ context. context ≡ list) }
        ensures well_formed { IfOk result IsWellFormed }
        ensures fault { IfErr result
            (λ no. IsFirstShapeFault list no.1 (shape_fault_code_of no.0)) }
        ensures back { IfErr result (λ refused. refused.2 ≡ list) }
    {
        let mut open = OpenHeaders::new();
        for at in 0..list.len() {
            if let Err(fault) = open.admit(&list, at) {
                return Err((fault, at, list));
            }
        }
        Ok(Context { list })
    }

    /// The context's list.
    pub fn list(&self) -> &AtomList
        ensures list { result.now ≡ self.now }
        ensures well_formed { IsWellFormed self.now }
    {
        &self.list
    }

    /// The context's list, as a list.
    pub fn into_list(self) -> AtomList
        ensures list { result ≡ self }
        ensures well_formed { IsWellFormed self }
    {
        self.list
    }

    /// Keeps the first `keep` atoms and puts a marker after them. It takes no memory.
    pub fn cut_to_marker(&mut self, keep: usize)
        requires { keep < length self.old }
        ensures { self.new ≡ take keep self.old ++ [] ∷ [] }
    {
        self.list.cut_to_marker(keep);
    }

    /// Takes out the data at these places, which rise; all other atoms stay, in order. It takes no
    /// memory.
    pub fn drop_data(&mut self, gone: &[usize])
        requires rises { Rises nat_cmp gone.now }
        requires data { AreDataPlaces gone.now self.old }
        ensures { self.new ≡ without gone.now self.old }
    {
        self.list.take_out(gone);
    }

    /// The context of the first `keep` atoms.
    pub fn front(&self, keep: usize) -> Result<Context, Memory>
        requires { keep ≤ length self.now }
        ensures { IfOk result (λ made. made ≡ take keep self.now) }
    {
        let list = self.list.front(keep)?;
        Ok(Context { list })
    }

    /// The same context again.
    pub fn copy(&self) -> Result<Context, Memory>
        ensures { IfOk result (λ made. made ≡ self.now) }
    {
        let list = self.list.copy()?;
        Ok(Context { list })
    }
}
