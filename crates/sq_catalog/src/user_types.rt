//! The changes of enumerations and domains.

ghost use Rattle.std.specs.Prelude.{◌≡◌, ◌<◌, IfSome, Ok, length, slice_get};
ghost use Rattle.std.specs.Option.{option_copied};
ghost use Rattle.sq_catalog.specs.Answers.{Answers, Gives};
ghost use Rattle.sq_catalog.specs.UserTypes.{is_enum, is_domain, place_of_enum, enum_named, domain_named, type_named, enum_of, free_type, with_enum, enum_created, with_domain, domain_created, value_added, value_renamed, place_of_domain, known_type, enum_titled, domain_titled, enum_housed, domain_housed, domain_changed, type_changed, type_renamed, type_moved, domain_of, under, base};
ghost use Rattle.sq_catalog.specs.Columns.{change_at};

use crate::labels::{add_label, check_labels, rename_label};
use crate::{Beside, Catalogue, Cause, ChangeFault, DomainType, EnumType};
use sq_base::{List, Name, PgType, Scalar};

// Whether an enumeration has this schema and this name.
fn is_enum(of: &EnumType, schema: &str, name: &str) -> bool
    ensures { result ≡ is_enum of.now schema.now name.now }
{
    of.schema.as_str() == schema && of.name.as_str() == name
}

// Whether a domain has this schema and this name.
fn is_domain(of: &DomainType, schema: &str, name: &str) -> bool
    ensures { result ≡ is_domain of.now schema.now name.now }
{
    of.schema.as_str() == schema && of.name.as_str() == name
}

// Gives the enumeration at a place another name.
fn set_enum_name(enums: &mut Vec<EnumType>, at: usize, name: Name)
    requires { at < length enums.old.items }
    ensures { enums.new.items ≡ change_at (enum_titled name) enums.old.items at }
{
    enums[at].name = name;
}

// Gives the domain at a place another name.
fn set_domain_name(domains: &mut Vec<DomainType>, at: usize, name: Name)
    requires { at < length domains.old.items }
    ensures { domains.new.items ≡ change_at (domain_titled name) domains.old.items at }
{
    domains[at].name = name;
}

// Brings the enumeration at a place into another schema.
fn set_enum_schema(enums: &mut Vec<EnumType>, at: usize, schema: Name)
    requires { at < length enums.old.items }
    ensures { enums.new.items ≡ change_at (enum_housed schema) enums.old.items at }
{
    enums[at].schema = schema;
}

// Brings the domain at a place into another schema.
fn set_domain_schema(domains: &mut Vec<DomainType>, at: usize, schema: Name)
    requires { at < length domains.old.items }
    ensures { domains.new.items ≡ change_at (domain_housed schema) domains.old.items at }
{
    domains[at].schema = schema;
}

impl Catalogue {
    // The enumeration of this name in this schema.
    fn enum_named(&self, schema: &str, name: &str) -> Option<&EnumType>
        ensures { option_copied result ≡ enum_named self.now schema.now name.now }
    {
        self.enums
            .as_slice()
            .iter()
            .find(|of| is_enum(of, schema, name))
    }

    // The domain of this name in this schema.
    pub(crate) fn domain_named(&self, schema: &str, name: &str) -> Option<&DomainType>
        ensures { option_copied result ≡ domain_named self.now schema.now name.now }
    {
        self.domains
            .as_slice()
            .iter()
            .find(|of| is_domain(of, schema, name))
    }

    /// The enumeration or domain of this name in this schema.
    pub fn type_named(&self, schema: &str, name: &str) -> Option<PgType>
        ensures { result ≡ type_named self.now schema.now name.now }
    {
        if let Some(of) = self.enum_named(schema, name) {
            return Some(PgType {
                scalar: Scalar::Enum(of.id),
                array: false,
            });
        }
        let of = self.domain_named(schema, name)?;
        Some(PgType {
            scalar: Scalar::Domain(of.id),
            array: false,
        })
    }

    /// The enumeration of this id.
    pub fn enum_of(&self, id: u32) -> Option<&EnumType>
        ensures { option_copied result ≡ enum_of self.now id }
    {
        self.enums.as_slice().iter().find(|of| of.id == id)
    }

    /// The enumeration at this place in the order in which they were made.
    pub fn enum_at(&self, index: usize) -> Option<&EnumType>
        ensures { option_copied result ≡ slice_get self.now.enums index }
    {
        self.enums.get(index)
    }

    /// The domain at this place in the order in which they were made.
    pub fn domain_at(&self, index: usize) -> Option<&DomainType>
        ensures { option_copied result ≡ slice_get self.now.domains index }
    {
        self.domains.get(index)
    }

    /// The domain of this id.
    pub fn domain_of(&self, id: u32) -> Option<&DomainType>
        ensures { option_copied result ≡ domain_of self.now id }
    {
        self.domains
            .as_slice()
            .iter()
            .find(|domain| domain.id == id)
    }

    // What a domain is over, and every other type itself.
    fn under(&self, of: PgType) -> PgType
        ensures { result ≡ under self.now of }
    {
        match of.scalar {
            Scalar::Domain(id) if !of.array => match self.domain_of(id) {
                Some(domain) => domain.base,
                None => of,
            },
            _ => of,
        }
    }

    /// The base type of a domain, in turn where that is a domain too, and every other type itself
    /// (PostgreSQL manual, section 8.18).
    #[tactic(auto, using(crate::proofs::Bases::one_more, crate::proofs::Bases::all_steps))]
    pub fn base(&self, of: PgType) -> PgType
        ensures { result ≡ base self.now of }
    {
        let mut found = of;
        let mut left = self.domains.len();
        while left > 0 {
            left -= 1;
            found = self.under(found);
        }
        found
    }

    // The place of the enumeration of this name in this schema.
    fn place_of_enum(&self, schema: &str, name: &str) -> Option<usize>
        ensures place { result ≡ place_of_enum self.now schema.now name.now }
        ensures within { IfSome result (λ at. at < length self.now.enums) }
    {
        self.enums
            .as_slice()
            .iter()
            .position(|of| is_enum(of, schema, name))
    }

    // Refuses a name that a type of this schema has.
    fn check_type(&self, schema: &str, name: &str) -> Result<(), ChangeFault>
        ensures { Gives (free_type self.now schema.now name.now) result }
    {
        if self.type_named(schema, name).is_some() {
            let name = Name::new(self.alloc, name)?;
            return Err(ChangeFault::Refused(Cause::Exists(name)));
        }
        Ok(())
    }

    // Adds an enumeration, which has the next id.
    fn add_enum(&mut self, schema: Name, name: Name, labels: List<Name>) -> Result<(), ChangeFault>
        ensures { Answers self.old (Ok (with_enum self.old schema name labels)) self.new result }
    {
        let given = self.one_more_given()?;
        self.enums.push(EnumType {
            id: self.given,
            schema,
            name,
            labels,
        })?;
        self.given = given;
        Ok(())
    }

    // Makes an enumeration, whose name must be free and whose labels must be different.
    pub(crate) fn create_enum(
        &mut self,
        schema: Name,
        name: Name,
        labels: List<Name>,
    ) -> Result<(), ChangeFault>
        ensures { Answers self.old (enum_created self.old schema name labels) self.new result }
    {
        self.check_type(schema.as_str(), name.as_str())?;
        check_labels(self.alloc, labels.as_slice())?;
        self.add_enum(schema, name, labels)
    }

    // Makes a domain, whose name must be free.
    pub(crate) fn create_domain(
        &mut self,
        schema: Name,
        name: Name,
        base: PgType,
    ) -> Result<(), ChangeFault>
        ensures { Answers self.old (domain_created self.old schema name base) self.new result }
    {
        self.check_type(schema.as_str(), name.as_str())?;
        let given = self.one_more_given()?;
        self.domains.push(DomainType {
            id: self.given,
            schema,
            name,
            base,
        })?;
        self.given = given;
        Ok(())
    }

    // Gives an enumeration a new label.
    pub(crate) fn add_value(
        &mut self,
        schema: Name,
        name: Name,
        label: Name,
        if_not_exists: bool,
        beside: Beside,
    ) -> Result<(), ChangeFault>
        ensures { Answers self.old (value_added self.old schema name label if_not_exists beside) self.new result }
    {
        let Some(at) = self.place_of_enum(schema.as_str(), name.as_str()) else {
            return Err(ChangeFault::Refused(Cause::Missing(name)));
        };
        let labels = &mut self.enums[at].labels;
        add_label(self.alloc, labels, label, if_not_exists, beside)
    }

    // Gives a label of an enumeration another text.
    pub(crate) fn rename_value(
        &mut self,
        schema: Name,
        name: Name,
        from: Name,
        to: Name,
    ) -> Result<(), ChangeFault>
        ensures { Answers self.old (value_renamed self.old schema name from to) self.new result }
    {
        let Some(at) = self.place_of_enum(schema.as_str(), name.as_str()) else {
            return Err(ChangeFault::Refused(Cause::Missing(name)));
        };
        let labels = &mut self.enums[at].labels;
        rename_label(labels, from, to)
    }

    // The place of the domain of this name in this schema.
    fn place_of_domain(&self, schema: &str, name: &str) -> Option<usize>
        ensures place { result ≡ place_of_domain self.now schema.now name.now }
        ensures within { IfSome result (λ at. at < length self.now.domains) }
    {
        self.domains
            .as_slice()
            .iter()
            .position(|of| is_domain(of, schema, name))
    }

    // Refuses a name that no type of this schema has.
    fn find_type(&self, schema: &str, name: &str) -> Result<(), ChangeFault>
        ensures { Gives (known_type self.now schema.now name.now) result }
    {
        if self.type_named(schema, name).is_none() {
            let name = Name::new(self.alloc, name)?;
            return Err(ChangeFault::Refused(Cause::Missing(name)));
        }
        Ok(())
    }

    // Gives the domain of this name another name.
    fn retitle_domain(&mut self, schema: Name, name: Name, to: Name) -> Result<(), ChangeFault>
        ensures { Answers self.old (domain_changed (domain_titled to) self.old schema name) self.new result }
    {
        match self.place_of_domain(schema.as_str(), name.as_str()) {
            None => Err(ChangeFault::Refused(Cause::Missing(name))),
            Some(at) => {
                set_domain_name(&mut self.domains, at, to);
                Ok(())
            }
        }
    }

    // Gives the enumeration or domain of this name another name.
    fn retitle_type(&mut self, schema: Name, name: Name, to: Name) -> Result<(), ChangeFault>
        ensures { Answers self.old (type_changed (enum_titled to) (domain_titled to) self.old schema name) self.new result }
    {
        match self.place_of_enum(schema.as_str(), name.as_str()) {
            Some(at) => {
                set_enum_name(&mut self.enums, at, to);
                Ok(())
            }
            None => self.retitle_domain(schema, name, to),
        }
    }

    // Brings the domain of this name into another schema.
    fn rehouse_domain(&mut self, schema: Name, name: Name, to: Name) -> Result<(), ChangeFault>
        ensures { Answers self.old (domain_changed (domain_housed to) self.old schema name) self.new result }
    {
        match self.place_of_domain(schema.as_str(), name.as_str()) {
            None => Err(ChangeFault::Refused(Cause::Missing(name))),
            Some(at) => {
                set_domain_schema(&mut self.domains, at, to);
                Ok(())
            }
        }
    }

    // Brings the enumeration or domain of this name into another schema.
    fn rehouse_type(&mut self, schema: Name, name: Name, to: Name) -> Result<(), ChangeFault>
        ensures { Answers self.old (type_changed (enum_housed to) (domain_housed to) self.old schema name) self.new result }
    {
        match self.place_of_enum(schema.as_str(), name.as_str()) {
            Some(at) => {
                set_enum_schema(&mut self.enums, at, to);
                Ok(())
            }
            None => self.rehouse_domain(schema, name, to),
        }
    }

    // Gives a type a name that must be free in its schema.
    pub(crate) fn rename_type(
        &mut self,
        schema: Name,
        name: Name,
        to: Name,
    ) -> Result<(), ChangeFault>
        ensures { Answers self.old (type_renamed self.old schema name to) self.new result }
    {
        self.find_type(schema.as_str(), name.as_str())?;
        self.check_type(schema.as_str(), to.as_str())?;
        self.retitle_type(schema, name, to)
    }

    // Brings a type into a schema where its name must be free.
    pub(crate) fn move_type(
        &mut self,
        schema: Name,
        name: Name,
        to: Name,
    ) -> Result<(), ChangeFault>
        ensures { Answers self.old (type_moved self.old schema name to) self.new result }
    {
        self.find_type(schema.as_str(), name.as_str())?;
        self.check_type(to.as_str(), name.as_str())?;
        self.rehouse_type(schema, name, to)
    }
}
