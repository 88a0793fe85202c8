ghost use Rattle.std.specs.Prelude.{◌≡◌};
ghost use Rattle.sq_shown.specs.declared.signature.Language.TheVariants.{Go, Python};
ghost use Rattle.sq_core.specs.Forms.{weak_holds, weak_in};

use sq_base::{PgType, Scalar};

/// The languages of which a weak type counts as one that may be null.
#[derive(Clone, Copy, Debug, PartialEq, Eq)]
pub struct Weak {
    pub go: bool,
    pub python: bool,
}

// Whether a type's form in Go admits null although it is the form of what is never null.
fn is_weak_in_go(of: PgType) -> bool
    ensures { result ≡ weak_in Go of }
{
    of.array || matches!(of.scalar, Scalar::Bytea | Scalar::Json | Scalar::Jsonb)
}

// The same in Python, where a list is no None.
fn is_weak_in_python(of: PgType) -> bool
    ensures { result ≡ weak_in Python of }
{
    !of.array && matches!(of.scalar, Scalar::Json | Scalar::Jsonb)
}

impl Weak {
    /// Whether the form of a type that is no domain admits null in a language that counts, although it is
    /// the form of what is never null.
    pub fn holds(self, of: PgType) -> bool
        ensures { result ≡ weak_holds self of }
    {
        self.go && is_weak_in_go(of) || self.python && is_weak_in_python(of)
    }
}
