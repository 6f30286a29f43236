//! Fields, declarations and imports, in the order of the text.

ghost use Rattle.std.specs.Prelude.{◌≡◌, false, [], codes, IfOk, IfErr, OnOk};
ghost use Rattle.std.specs.List.{AllByRecursion};
ghost use Rattle.bdl_parser.specs.Grammar.{this_word, a_bag_field, a_struct_field, bag_fields, struct_fields, a_bag, a_struct, a_decl, an_import, the_decls, a_module};
ghost use Rattle.bdl_parser.specs.Refusals.{meets, IsFormRefused};
ghost use Rattle.bdl_parser.specs.Decls.{IsSpelledField, IsSpelledDecl, AreSpelledDecls};
ghost use Rattle.bdl_parser.specs.Views.{bag_field_of, struct_field_of};
ghost use Rattle.grammar_model.specs.Grammars.{Repeats, many};
ghost use Rattle.grammar_model.specs.Stops.{Taken};

use crate::lists::{BagFields, Decls, Imports, StructFields};
use crate::parser::Parser;
use crate::trees::{BagField, Decl, Import, Module, StructField};
use crate::{NESTING_MAX, ParseCode};
use outside::OrMemory;
use std::alloc::Global;

impl<'a> Parser<'a> {
    fn bag_field(&mut self, alloc: Global) -> Result<BagField, OrMemory<ParseCode>>
        ensures ok { IfOk result (λ field.
            Taken a_bag_field NESTING_MAX self.old (bag_field_of field) self.new) }
        ensures spelled { IfOk result (λ field. IsSpelledField (bag_field_of field)) }
        ensures err { IfErr result (λ fault.
            IsFormRefused a_bag_field NESTING_MAX fault self.old self.new) }
    {
        let kind = self.type_node(alloc, NESTING_MAX)?;
        let (name, name_at) = self.name(alloc)?;
        self.sign(b'=')?;
        let (number, number_at) = self.number()?;
        self.sign(b';')?;
        Ok(BagField {
            kind,
            name,
            name_at,
            number,
            number_at,
        })
    }

    fn struct_field(&mut self, alloc: Global) -> Result<StructField, OrMemory<ParseCode>>
        ensures ok { IfOk result (λ field.
            Taken a_struct_field NESTING_MAX self.old (struct_field_of field) self.new) }
        ensures err { IfErr result (λ fault.
            IsFormRefused a_struct_field NESTING_MAX fault self.old self.new) }
    {
        let kind = self.type_node(alloc, NESTING_MAX)?;
        let (name, name_at) = self.name(alloc)?;
        self.sign(b';')?;
        Ok(StructField {
            kind,
            name,
            name_at,
        })
    }

    fn bag_fields(&mut self, alloc: Global) -> Result<BagFields, OrMemory<ParseCode>>
        ensures ok { IfOk result (λ fields. Taken bag_fields NESTING_MAX self.old fields self.new) }
        ensures spelled { IfOk result (λ fields. AllByRecursion IsSpelledField fields) }
        ensures err { IfErr result (λ fault.
            IsFormRefused bag_fields NESTING_MAX fault self.old self.new) }
    {
        let mut fields = BagFields::new(alloc);
        'fields: while !self.is_at_sign(b'}') {
            let field = self.bag_field(alloc)?;
            fields.push(field)?;
        }
        self.sign(b'}')?;
        Ok(fields)
    }

    fn struct_fields(&mut self, alloc: Global) -> Result<StructFields, OrMemory<ParseCode>>
        ensures ok { IfOk result (λ fields.
            Taken struct_fields NESTING_MAX self.old fields self.new) }
        ensures err { IfErr result (λ fault.
            IsFormRefused struct_fields NESTING_MAX fault self.old self.new) }
    {
        let mut fields = StructFields::new(alloc);
        'fields: while !self.is_at_sign(b'}') {
            let field = self.struct_field(alloc)?;
            fields.push(field)?;
        }
        self.sign(b'}')?;
        Ok(fields)
    }

    fn bag(&mut self, alloc: Global) -> Result<Decl, OrMemory<ParseCode>>
        ensures ok { IfOk result (λ decl. Taken a_bag NESTING_MAX self.old decl self.new) }
        ensures spelled { IfOk result IsSpelledDecl }
        ensures err { IfErr result (λ fault.
            IsFormRefused a_bag NESTING_MAX fault self.old self.new) }
    {
        self.key("bag")?;
        let (name, at) = self.name(alloc)?;
        self.sign(b'{')?;
        let fields = self.bag_fields(alloc)?;
        Ok(Decl::Bag { name, at, fields })
    }

    fn structure(&mut self, alloc: Global) -> Result<Decl, OrMemory<ParseCode>>
        ensures ok { IfOk result (λ decl. Taken a_struct NESTING_MAX self.old decl self.new) }
        ensures spelled { IfOk result IsSpelledDecl }
        ensures err { IfErr result (λ fault.
            IsFormRefused a_struct NESTING_MAX fault self.old self.new) }
    {
        self.key("struct")?;
        let (name, at) = self.name(alloc)?;
        self.sign(b'{')?;
        let fields = self.struct_fields(alloc)?;
        Ok(Decl::Struct { name, at, fields })
    }

    fn decl(&mut self, alloc: Global) -> Result<Decl, OrMemory<ParseCode>>
        ensures ok { IfOk result (λ decl. Taken a_decl NESTING_MAX self.old decl self.new) }
        ensures spelled { IfOk result IsSpelledDecl }
        ensures err { IfErr result (λ fault.
            IsFormRefused a_decl NESTING_MAX fault self.old self.new) }
    {
        if self.is_at_key("bag") {
            return self.bag(alloc);
        }
        if self.is_at_key("struct") {
            return self.structure(alloc);
        }
        Err(OrMemory::Fault(ParseCode::Expected))
    }

    fn import(&mut self, alloc: Global) -> Result<Import, OrMemory<ParseCode>>
        ensures ok { IfOk result (λ import. Taken (λ n. an_import) 0 self.old import self.new) }
        ensures err { IfErr result (λ fault.
            IsFormRefused (λ n. an_import) 0 fault self.old self.new) }
    {
        self.key("import")?;
        let (file, at) = self.quoted(alloc)?;
        self.sign(b';')?;
        Ok(Import { file, at })
    }

    fn imports(&mut self, alloc: Global) -> Result<Imports, OrMemory<ParseCode>>
        ensures ok { IfOk result (λ imports. Repeats an_import self.old imports self.new) }
        ensures end { OnOk result (meets (this_word (codes "import")) self.new ≡ false) }
        ensures err { IfErr result (λ fault.
            IsFormRefused (λ n. many an_import (the_decls n)) NESTING_MAX fault self.old self.new) }
    {
        let mut imports = Imports::new(alloc);
        'imports: while self.is_at_key("import") {
            let import = self.import(alloc)?;
            imports.push(import)?;
        }
        Ok(imports)
    }

    fn decls(&mut self, alloc: Global) -> Result<Decls, OrMemory<ParseCode>>
        ensures ok { IfOk result (λ decls. Taken the_decls NESTING_MAX self.old decls []) }
        ensures spelled { IfOk result AreSpelledDecls }
        ensures end { OnOk result (self.new ≡ []) }
        ensures err { IfErr result (λ fault.
            IsFormRefused the_decls NESTING_MAX fault self.old self.new) }
    {
        let mut decls = Decls::new(alloc);
        'decls: while self.left() > 0 {
            let decl = self.decl(alloc)?;
            decls.push(decl)?;
        }
        Ok(decls)
    }

    /// Reads a module to the last token.
    pub fn module(&mut self, alloc: Global) -> Result<Module, OrMemory<ParseCode>>
        ensures ok { IfOk result (λ module_. Taken a_module NESTING_MAX self.old module_ []) }
        ensures spelled { IfOk result (λ module_. AreSpelledDecls module_.decls) }
        ensures err { IfErr result (λ fault.
            IsFormRefused a_module NESTING_MAX fault self.old self.new) }
    {
        let imports = self.imports(alloc)?;
        let decls = self.decls(alloc)?;
        Ok(Module { imports, decls })
    }
}
