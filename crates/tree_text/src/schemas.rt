//! Schema statements as texts: names as they are kept, words for what is chosen, and a run of tokens in
//! angle brackets.

use crate::words::{Done, say, say_bytes, write_place};
use sq_base::{List, Place};
use sq_syntax::{
    Behavior, Column, Constraint, ConstraintForm, CreateTable, Ddl, Dropped, Element, Generation,
    Identifier, Neighbour, Node, QualifiedName, Reaction, Reading, Reference, ReferenceAction,
    ReferenceEvent, SetType, TableAction, TableChange, TableConstraint, TableConstraintForm, Tail,
    TimeZone, TypeChange, TypeName, TypeWord,
};
use std::alloc::Global;

/// The text of a schema statement in the making.
#[derive(Drop)]
pub struct Shown {
    alloc: Global,
    pub text: String,
    /// Whether each field is shown, with the places. In a short text a run has a point for each of its
    /// tokens; in a full one it has the bytes of what is no symbol of the grammar.
    is_full: bool,
}

impl Shown {
    pub fn new(alloc: Global, is_full: bool) -> Shown {
        Shown {
            alloc,
            text: String::new(alloc),
            is_full,
        }
    }

    fn say(&mut self, word: &str) -> Done {
        say(&mut self.text, word)
    }

    fn say_if(&mut self, holds: bool, word: &str) -> Done {
        if holds { self.say(word) } else { Ok(()) }
    }

    /// Writes a word that a short text leaves out.
    fn say_full(&mut self, holds: bool, word: &str) -> Done {
        self.say_if(holds && self.is_full, word)
    }

    fn at(&mut self, place: Place) -> Done {
        if self.is_full {
            self.text.push('@')?;
            write_place(&mut self.text, place)
        } else {
            Ok(())
        }
    }

    fn name(&mut self, name: &Identifier) -> Done {
        if self.is_full && name.is_quoted {
            self.say("\"")?;
            self.text.push_str(name.name.as_str())?;
            self.text.push('"')?;
        } else {
            self.say(name.name.as_str())?;
        }
        self.at(name.place)
    }

    fn names(&mut self, names: &List<Identifier>) -> Done {
        for name in names.as_slice() {
            self.name(name)?;
        }
        Ok(())
    }

    fn optional_name(&mut self, name: &Option<Identifier>) -> Done {
        match name {
            Some(name) => self.name(name),
            None => Ok(()),
        }
    }

    fn qualified(&mut self, name: &QualifiedName) -> Done {
        match &name.schema {
            Some(schema) if self.is_full => {
                self.name(schema)?;
                self.say(".")?;
                self.name(&name.name)
            }
            Some(schema) => {
                self.say(schema.name.as_str())?;
                self.text.push('.')?;
                self.text.push_str(name.name.name.as_str())
            }
            None => self.name(&name.name),
        }
    }

    fn bytes(&mut self, bytes: &List<u8>) -> Done {
        say_bytes(self.alloc, &mut self.text, bytes.as_slice())
    }

    fn reading(&mut self, reading: &Reading) -> Done {
        match reading {
            Reading::Word(bytes)
            | Reading::Quoted(bytes)
            | Reading::Text(bytes)
            | Reading::EText(bytes)
            | Reading::Dollar(bytes)
            | Reading::Number(bytes)
            | Reading::Parameter(bytes)
            | Reading::Named(bytes)
            | Reading::Operator(bytes) => self.bytes(bytes),
            Reading::Symbol(_) | Reading::Note => self.say("."),
        }
    }

    fn run(&mut self, tokens: &List<Reading>) -> Done {
        self.say("<")?;
        for token in tokens.as_slice() {
            if self.is_full {
                self.reading(token)?;
            } else {
                self.text.push('.')?;
            }
        }
        if self.is_full {
            self.say(">")
        } else {
            self.text.push('>')
        }
    }

    fn behavior(&mut self, behavior: Behavior) -> Done {
        match behavior {
            Behavior::Unsaid => Ok(()),
            Behavior::Cascade => self.say("cascade"),
            Behavior::Restrict => self.say("restrict"),
        }
    }

    fn type_name(&mut self, of: &TypeName) -> Done {
        match &of.word {
            TypeWord::Named(word) => self.qualified(word)?,
            TypeWord::DoublePrecision(place) => {
                self.say("double precision")?;
                self.at(*place)?;
            }
            TypeWord::CharacterVarying(place) => {
                self.say("character varying")?;
                self.at(*place)?;
            }
        }
        for size in of.size.as_slice() {
            self.bytes(size)?;
        }
        match of.zone {
            TimeZone::Unsaid => {}
            TimeZone::With => self.say("with zone")?,
            TimeZone::Without => self.say("without zone")?,
        }
        for length in of.arrays.as_slice() {
            if self.is_full && length.len() > 0 {
                self.say("[")?;
                self.bytes(length)?;
                self.say("]")?;
            } else {
                self.say("[]")?;
            }
        }
        Ok(())
    }

    fn reaction(&mut self, reaction: Reaction) -> Done {
        if !self.is_full {
            return self.say("reaction");
        }
        match reaction.event {
            ReferenceEvent::Delete => self.say("on delete")?,
            ReferenceEvent::Update => self.say("on update")?,
        }
        match reaction.action {
            ReferenceAction::Cascade => self.say("cascade"),
            ReferenceAction::Restrict => self.say("restrict"),
            ReferenceAction::NoAction => self.say("no action"),
            ReferenceAction::SetNull => self.say("set null"),
            ReferenceAction::SetDefault => self.say("set default"),
        }
    }

    fn reference(&mut self, to: &Reference) -> Done {
        self.say("references")?;
        self.qualified(&to.table)?;
        self.names(&to.columns)?;
        if let Some(matching) = &to.matching {
            self.say(matching.as_str())?;
        }
        for reaction in to.reactions.as_slice() {
            self.reaction(*reaction)?;
        }
        Ok(())
    }

    fn constraint_form(&mut self, form: &ConstraintForm) -> Done {
        match form {
            ConstraintForm::NotNull => self.say("not null"),
            ConstraintForm::Null => self.say("null"),
            ConstraintForm::PrimaryKey => self.say("primary key"),
            ConstraintForm::Unique => self.say("unique"),
            ConstraintForm::Collate(by) => {
                self.say_full(true, "collate")?;
                self.qualified(by)
            }
            ConstraintForm::Default(tokens) => {
                self.say("default")?;
                self.run(tokens)
            }
            ConstraintForm::Check(tokens, alone) => {
                self.say("check")?;
                self.run(tokens)?;
                self.say_if(*alone, "no inherit")
            }
            ConstraintForm::References(to) => self.reference(to),
            ConstraintForm::Identity(by, options) => {
                match by {
                    Generation::Always => self.say("always")?,
                    Generation::ByDefault => self.say("by default")?,
                }
                match options {
                    Some(tokens) => self.run(tokens),
                    None => Ok(()),
                }
            }
            ConstraintForm::Stored(tokens) => {
                self.say("stored")?;
                self.run(tokens)
            }
            ConstraintForm::Deferrable => self.say("deferrable"),
            ConstraintForm::NotDeferrable => self.say("not deferrable"),
            ConstraintForm::Initially(when) => self.say(when.as_str()),
        }
    }

    fn constraints(&mut self, constraints: &List<Constraint>) -> Done {
        for constraint in constraints.as_slice() {
            self.say("+")?;
            self.optional_name(&constraint.name)?;
            self.constraint_form(&constraint.form)?;
        }
        Ok(())
    }

    fn column(&mut self, column: &Column) -> Done {
        self.name(&column.name)?;
        self.type_name(&column.of)?;
        self.constraints(&column.constraints)
    }

    fn table_constraint(&mut self, constraint: &TableConstraint) -> Done {
        self.say("*")?;
        self.optional_name(&constraint.name)?;
        match &constraint.form {
            TableConstraintForm::PrimaryKey(columns, tokens) => {
                self.say("key")?;
                self.names(columns)?;
                self.run(tokens)
            }
            TableConstraintForm::Unique(tokens) => {
                self.say_full(true, "unique")?;
                self.run(tokens)
            }
            TableConstraintForm::Check(tokens) => {
                self.say_full(true, "check")?;
                self.run(tokens)
            }
            TableConstraintForm::ForeignKey(tokens) => {
                self.say_full(true, "foreign key")?;
                self.run(tokens)
            }
            TableConstraintForm::Exclude(tokens) => {
                self.say_full(true, "exclude")?;
                self.run(tokens)
            }
        }
    }

    fn table(&mut self, table: &CreateTable) -> Done {
        self.say_if(table.is_unlogged, "unlogged")?;
        self.say_if(table.if_not_exists, "unless")?;
        self.qualified(&table.name)?;
        for element in table.elements.as_slice() {
            self.say("|")?;
            match element {
                Element::Column(column) => self.column(column)?,
                Element::Constraint(constraint) => self.table_constraint(constraint)?,
            }
        }
        for tail in table.tails.as_slice() {
            match tail {
                Tail::PartitionBy(tokens) => {
                    self.say("partition by")?;
                    self.run(tokens)?;
                }
                Tail::With(tokens) => {
                    self.say("with")?;
                    self.run(tokens)?;
                }
                Tail::Tablespace(name) => {
                    self.say_full(true, "tablespace")?;
                    self.name(name)?;
                }
            }
        }
        Ok(())
    }

    fn set_type(&mut self, change: &SetType) -> Done {
        self.say("type")?;
        self.say_full(change.has_column, "column")?;
        self.name(&change.column)?;
        self.say_full(change.has_set_data, "set data")?;
        self.type_name(&change.to)?;
        match &change.collation {
            Some(collation) if self.is_full => {
                self.say("collate")?;
                self.qualified(collation)?;
            }
            _ => {}
        }
        self.run(&change.using)
    }

    fn action(&mut self, action: &TableAction) -> Done {
        self.say("|")?;
        match action {
            TableAction::AddColumn(has_column, unless, column) => {
                self.say("add")?;
                self.say_full(*has_column, "column")?;
                self.say_if(*unless, "unless")?;
                self.column(column)
            }
            TableAction::AddConstraint(constraint) => self.table_constraint(constraint),
            TableAction::DropColumn(has_column, only_if, name, behavior) => {
                self.say("drop")?;
                self.say_full(*has_column, "column")?;
                self.say_if(*only_if, "if")?;
                self.name(name)?;
                self.behavior(*behavior)
            }
            TableAction::DropConstraint(only_if, name, behavior) => {
                self.say("drop constraint")?;
                self.say_if(*only_if, "if")?;
                self.name(name)?;
                self.behavior(*behavior)
            }
            TableAction::SetNotNull(has_column, name) => {
                self.say("set not null")?;
                self.say_full(*has_column, "column")?;
                self.name(name)
            }
            TableAction::DropNotNull(has_column, name) => {
                self.say("drop not null")?;
                self.say_full(*has_column, "column")?;
                self.name(name)
            }
            TableAction::SetType(change) => self.set_type(change),
            TableAction::Other(tokens) => self.run(tokens),
        }
    }

    fn table_change(&mut self, change: &TableChange) -> Done {
        match change {
            TableChange::RenameTo(to) => {
                self.say("to")?;
                self.name(to)
            }
            TableChange::RenameColumn(has_column, from, to) => {
                self.say("rename")?;
                self.say_full(*has_column, "column")?;
                self.name(from)?;
                self.name(to)
            }
            TableChange::RenameConstraint(from, to) => {
                self.say("rename constraint")?;
                self.name(from)?;
                self.name(to)
            }
            TableChange::SetSchema(to) => {
                self.say("set schema")?;
                self.name(to)
            }
            TableChange::Actions(actions) => {
                for action in actions.as_slice() {
                    self.action(action)?;
                }
                Ok(())
            }
        }
    }

    fn type_change(&mut self, change: &TypeChange) -> Done {
        match change {
            TypeChange::AddValue(unless, label, neighbour) => {
                self.say("add")?;
                self.say_if(*unless, "unless")?;
                self.bytes(label)?;
                match neighbour {
                    Neighbour::Unsaid => Ok(()),
                    Neighbour::Before(label) => {
                        self.say("before")?;
                        self.bytes(label)
                    }
                    Neighbour::After(label) => {
                        self.say("after")?;
                        self.bytes(label)
                    }
                }
            }
            TypeChange::RenameValue(from, to) => {
                self.say("rename")?;
                self.bytes(from)?;
                self.bytes(to)
            }
            TypeChange::RenameTo(to) => {
                self.say("to")?;
                self.name(to)
            }
            TypeChange::SetSchema(to) => {
                self.say("set schema")?;
                self.name(to)
            }
            TypeChange::Other(tokens) => self.run(tokens),
        }
    }

    /// Writes the kind of a statement, and in a full text its place and the numbers of its first and
    /// last token.
    fn kind<T>(&mut self, word: &str, node: &Node<T>) -> Done {
        self.say(word)?;
        self.at(node.place)?;
        if self.is_full {
            let (first, last) = (node.first, node.last);
            write!(self.text, " {first} to {last}")?;
        }
        Ok(())
    }

    /// Writes the schema statement.
    pub fn schema(&mut self, statement: &Ddl) -> Done {
        match statement {
            Ddl::CreateSchema(x) => {
                self.kind("schema", x)?;
                self.say_if(x.form.if_not_exists, "unless")?;
                self.name(&x.form.name)?;
                self.optional_name(&x.form.owner)
            }
            Ddl::CreateTable(x) => {
                self.kind("table", x)?;
                self.table(&x.form)
            }
            Ddl::CreateType(x) => {
                self.kind("enum", x)?;
                self.qualified(&x.form.name)?;
                for label in x.form.labels.as_slice() {
                    self.bytes(label)?;
                }
                Ok(())
            }
            Ddl::CreateDomain(x) => {
                self.kind("domain", x)?;
                self.qualified(&x.form.name)?;
                self.say_full(x.form.has_as, "as")?;
                self.type_name(&x.form.base)?;
                self.constraints(&x.form.constraints)
            }
            Ddl::DropSchema(x) => {
                self.kind("drop schema", x)?;
                self.say_if(x.form.if_exists, "if")?;
                self.names(&x.form.names)?;
                self.behavior(x.form.behavior)
            }
            Ddl::Drop(x) => {
                self.kind("drop", x)?;
                self.say_full(true, dropped_word(x.form.kind))?;
                self.say_if(x.form.if_exists, "if")?;
                for name in x.form.names.as_slice() {
                    self.qualified(name)?;
                }
                self.behavior(x.form.behavior)
            }
            Ddl::AlterTable(x) => {
                self.kind("alter", x)?;
                self.say_if(x.form.if_exists, "if")?;
                self.say_if(x.form.has_only, "only")?;
                self.qualified(&x.form.name)?;
                self.say_if(x.form.has_star, "star")?;
                self.table_change(&x.form.change)
            }
            Ddl::AlterType(x) => {
                self.kind("alter type", x)?;
                self.qualified(&x.form.name)?;
                self.type_change(&x.form.change)
            }
        }
    }
}

fn dropped_word(kind: Dropped) -> &'static str {
    match kind {
        Dropped::Table => "table",
        Dropped::Type => "type",
        Dropped::Domain => "domain",
    }
}
