//! Where domains stand among types.

ghost use Rattle.std.specs.Prelude.{◌≡◌};
ghost use Rattle.sq_overload.specs.Domains.{has_no_domain, has_no_domain_unless_one, is_domain};

use crate::agreement::one_type;
use sq_base::{PgType, Scalar};

// Whether a scalar type is a domain.
fn is_domain(of: Scalar) -> bool
    ensures { result ≡ is_domain of }
{
    matches!(of, Scalar::Domain(_))
}

/// Whether none of these types is a domain, or an array of one, as `pick` asks.
pub fn has_no_domain(types: &[PgType]) -> bool
    ensures { result ≡ has_no_domain types.now }
{
    types.iter().all(|&of| !is_domain(of.scalar))
}

/// Whether none of these types is a domain, unless all of them are one type, as `common` asks.
pub fn has_no_domain_unless_one(types: &[PgType]) -> bool
    ensures { result ≡ has_no_domain_unless_one types.now }
{
    has_no_domain(types) || one_type(types).is_some()
}
