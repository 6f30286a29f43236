//! Types, which are inside one another.

ghost use Rattle.std.specs.Prelude.{◌≡◌, IfOk, IfErr};
ghost use Rattle.bdl_parser.specs.declared.trees.Spot.{Spot};
ghost use Rattle.bdl_parser.specs.Grammar.{a_leaf, a_holding, a_type, held_of, map_of};
ghost use Rattle.bdl_parser.specs.Refusals.{meets, IsTokenRefused, IsFormRefused, is_type_first};
ghost use Rattle.bdl_parser.specs.Trees.{held};
ghost use Rattle.bdl_parser.specs.Views.{tree_at, tree_of};
ghost use Rattle.grammar_model.specs.Grammars.{IsOne};
ghost use Rattle.grammar_model.specs.Stops.{Taken, first_passes};

use crate::ParseCode;
use crate::parser::{Meaning, Parser};
use crate::trees::{Holding, Spot, TypeForm, TypeNode};
use crate::words::{holding, is_leaf, leaf_form};
use outside::{Memory, OrMemory};
use std::alloc::Global;

fn box_node(alloc: Global, node: TypeNode) -> Result<Box<TypeNode>, Memory>
    ensures { IfOk result (λ made. made.value ≡ node) }
{
    Box::new(alloc, node).map_err(|_| Memory)
}

/// What a type with these elements is.
fn held_form(holding: Holding, element: Box<TypeNode>) -> TypeForm
    ensures { (spot : Spot) → tree_at spot result ≡ held holding (tree_of element.value) spot }
{
    match holding {
        Holding::AsSet => TypeForm::Set(element),
        Holding::AsGreatest => TypeForm::Greatest(element),
    }
}

impl<'a> Parser<'a> {
    /// Whether a type begins here.
    fn is_at_type(&self) -> bool
        ensures { result ≡ first_passes is_type_first self.now }
    {
        match self.peek() {
            Some((Meaning::Word(bytes), _)) => {
                is_leaf(bytes) || holding(bytes).is_some() || self.is_at_key("map")
            }
            _ => false,
        }
    }

    /// Why no type may be read where none is allowed.
    fn no_room(&self) -> OrMemory<ParseCode>
        ensures { IsFormRefused a_type 0 result self.now self.now }
    {
        if self.is_at_type() {
            OrMemory::Fault(ParseCode::TypeNesting)
        } else {
            OrMemory::Fault(ParseCode::Expected)
        }
    }

    /// Reads a type of one word.
    fn leaf(&mut self, alloc: Global) -> Result<TypeNode, OrMemory<ParseCode>>
        ensures ok { IfOk result (λ node. IsOne a_leaf self.old (tree_of node) self.new) }
        ensures err { IfErr result (λ fault. IsTokenRefused a_leaf fault self.old self.new) }
    {
        match self.peek() {
            Some((Meaning::Word(bytes), at)) => {
                let Some(form) = leaf_form(alloc, bytes)? else {
                    return Err(OrMemory::Fault(ParseCode::Expected));
                };
                self.advance();
                Ok(TypeNode { at, form })
            }
            _ => Err(OrMemory::Fault(ParseCode::Expected)),
        }
    }

    /// Whether a type with elements begins here.
    fn is_at_holding(&self) -> bool
        ensures { result ≡ meets a_holding self.now }
    {
        match self.peek() {
            Some((Meaning::Word(bytes), _)) => holding(bytes).is_some(),
            _ => false,
        }
    }

    /// Reads the word that a type with elements begins with.
    fn holding(&mut self) -> Result<(Holding, Spot), OrMemory<ParseCode>>
        ensures ok { IfOk result (λ found. IsOne a_holding self.old found self.new) }
        ensures err { IfErr result (λ fault. IsTokenRefused a_holding fault self.old self.new) }
    {
        match self.peek() {
            Some((Meaning::Word(bytes), at)) => {
                let Some(found) = holding(bytes) else {
                    return Err(OrMemory::Fault(ParseCode::Expected));
                };
                self.advance();
                Ok((found, at))
            }
            _ => Err(OrMemory::Fault(ParseCode::Expected)),
        }
    }

    /// Reads a type in which at most `room` types are inside one another.
    #[cycle(nested)]
    pub fn type_node(&mut self, alloc: Global, room: u32) -> Result<TypeNode, OrMemory<ParseCode>>
        ensures ok { IfOk result (λ node. Taken a_type room self.old (tree_of node) self.new) }
        ensures err { IfErr result (λ fault. IsFormRefused a_type room fault self.old self.new) }
    {
        let Some(inner) = room.checked_sub(1) else {
            return Err(self.no_room());
        };
        if self.is_at_holding() {
            return self.held_type(alloc, inner);
        }
        if self.is_at_key("map") {
            return self.map_type(alloc, inner);
        }
        self.leaf(alloc)
    }

    #[cycle(nested)]
    fn held_type(&mut self, alloc: Global, room: u32) -> Result<TypeNode, OrMemory<ParseCode>>
        ensures ok { IfOk result (λ node.
            Taken (λ n. held_of (a_type n)) room self.old (tree_of node) self.new) }
        ensures err { IfErr result (λ fault.
            IsFormRefused (λ n. held_of (a_type n)) room fault self.old self.new) }
    {
        let (holding, at) = self.holding()?;
        self.sign(b'<')?;
        let element = self.type_node(alloc, room)?;
        self.sign(b'>')?;
        let form = held_form(holding, box_node(alloc, element)?);
        Ok(TypeNode { at, form })
    }

    #[cycle(nested)]
    fn map_type(&mut self, alloc: Global, room: u32) -> Result<TypeNode, OrMemory<ParseCode>>
        ensures ok { IfOk result (λ node.
            Taken (λ n. map_of (a_type n)) room self.old (tree_of node) self.new) }
        ensures err { IfErr result (λ fault.
            IsFormRefused (λ n. map_of (a_type n)) room fault self.old self.new) }
    {
        let at = self.key("map")?;
        self.sign(b'<')?;
        let key = self.type_node(alloc, room)?;
        self.sign(b',')?;
        let value = self.type_node(alloc, room)?;
        self.sign(b'>')?;
        let form = TypeForm::Map(box_node(alloc, key)?, box_node(alloc, value)?);
        Ok(TypeNode { at, form })
    }
}
