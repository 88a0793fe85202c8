//! The occurrences of parameters in a statement.

ghost use Rattle.std.specs.Prelude.{◌≡◌, ◌++◌, [], ◌∷◌, OnOk, OnErr};
ghost use Rattle.sq_base.specs.Answers.{Gives};
ghost use Rattle.sq_scope.specs.Demands.{settled};

use crate::settling::settled;
use sq_base::{Fault, List, Name, PgType, Place};
use sq_catalog::Catalogue;
use sq_core::Weak;
use sq_shown::Param;
use std::alloc::{AllocError, Global};
use std::marker::Model;

/// An occurrence of a parameter, and the type that it is given there: Unknown where it is given none.
#[derive(Debug, Drop)]
pub struct Demand {
    pub number: u32,
    pub of: PgType,
    pub place: Place,
    /// Whether it is assigned to a nullable column or compared with one.
    pub nullable_place: bool,
    /// Whether its own words say that it may be null.
    pub narg: bool,
    /// Its own name, or that of the column that it is compared with or assigned to.
    pub name: Option<Name>,
}

/// The occurrences of parameters in a statement, as they are noted.
#[derive(Debug, Drop)]
pub struct Demands {
    noted: List<Demand>,
}

impl Model for Demands {
    ghost use Rattle.std.specs.Prelude.{List};
    ghost use Rattle.sq_scope.specs.declared.demands.Demand.{Demand};

    ghost Value = { List Demand };

    ghost view = { λ demands. demands.noted };
}

impl Demands {
    pub fn new(alloc: Global) -> Demands
        ensures { result ≡ [] }
    {
        Demands {
            noted: List::new(alloc),
        }
    }

    pub fn note(&mut self, demand: Demand) -> Result<(), AllocError>
        ensures ok { OnOk result (self.new ≡ self.old ++ demand ∷ []) }
        ensures err { OnErr result (self.new ≡ self.old) }
    {
        self.noted.push(demand)
    }

    /// The parameters of the statement whose first token has this place. It is refused there where a number up to
    /// the greatest has no occurrence, and at an occurrence that is given another type than one before it.
    pub fn settle(
        self,
        alloc: Global,
        catalogue: &Catalogue,
        weak: Weak,
        first: Place,
    ) -> Result<List<Param>, Fault>
        ensures { Gives (settled catalogue.now weak first self) result }
    {
        let Demands { noted } = self;
        settled(alloc, catalogue, weak, first, noted)
    }
}
