//! What a definition says.

use crate::lists::{BagFields, Decls, Imports, StructFields};
use bag_model::ScalarWord;
use outside::Text;

/// A place in a source: the line and the byte of that line, both from 1 on.
#[derive(Clone, Copy, Debug, PartialEq, Eq)]
pub struct Spot {
    pub line: u32,
    pub column: u32,
}

/// What a file says: its imports and its declarations, in the order of the text.
#[derive(Drop)]
pub struct Module {
    pub imports: Imports,
    pub decls: Decls,
}

/// An import, with the place of its Text.
#[derive(Drop)]
pub struct Import {
    /// The characters between the quotes.
    pub file: Text,
    pub at: Spot,
}

/// A declaration, with the place of its name.
#[derive(Drop)]
pub enum Decl {
    Bag {
        name: Text,
        at: Spot,
        fields: BagFields,
    },
    Struct {
        name: Text,
        at: Spot,
        fields: StructFields,
    },
}

/// A field of a bag.
#[derive(Drop)]
pub struct BagField {
    pub kind: TypeNode,
    pub name: Text,
    pub name_at: Spot,
    pub number: u16,
    pub number_at: Spot,
}

/// A field of a struct.
#[derive(Drop)]
pub struct StructField {
    pub kind: TypeNode,
    pub name: Text,
    pub name_at: Spot,
}

/// A type, with the place of its first token.
#[cycle(types)]
#[derive(Drop)]
pub struct TypeNode {
    pub at: Spot,
    pub form: TypeForm,
}

/// What a type is.
#[cycle(types)]
#[derive(Drop)]
pub enum TypeForm {
    Scalar(ScalarWord),
    Float,
    Double,
    Taint,
    Counter,
    Set(Box<TypeNode>),
    /// One value, the greatest that is written.
    Greatest(Box<TypeNode>),
    /// The key's type and the value's.
    Map(Box<TypeNode>, Box<TypeNode>),
    /// A bag or a struct by its name.
    Name(Text),
}

/// How a type holds its elements: each of them, or the greatest alone.
#[derive(Clone, Copy, Debug, PartialEq, Eq)]
pub enum Holding {
    AsSet,
    AsGreatest,
}
