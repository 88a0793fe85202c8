//! How patterns fit arguments.

ghost use Rattle.std.specs.Prelude.{◌≡◌, ◌≤◌, length};
ghost use Rattle.sq_overload.specs.Resolution.{accepts, accepts_known, is_exact, is_preferred};
ghost use Rattle.sq_overload.specs.Resolution;

use crate::converts::{converts, is_known, is_one_category, is_one_type};
use sq_base::{PgType, Scalar, category, preferred};
use sq_builtin::Pattern;

/// A way in which a pattern fits an argument.
#[derive(Clone, Copy)]
pub enum Fit {
    /// It is the argument's own type.
    Exact,
    /// It accepts the argument.
    Accepting,
    /// It is exact, or the preferred type of the argument's category.
    Close,
    /// It accepts this type, where the argument is unknown.
    Assumed(PgType),
}

// Whether a pattern accepts a known type.
fn accepts_known(pattern: Pattern, of: PgType) -> bool
    ensures { result ≡ accepts_known pattern of }
{
    match pattern {
        Pattern::Is(to) => converts(of, to),
        Pattern::AnyArray => of.array,
        Pattern::AnyElement => true,
        Pattern::AnyNonArray => !of.array,
        Pattern::AnyEnum => !of.array && matches!(of.scalar, Scalar::Enum(_)),
        Pattern::Any => true,
    }
}

// Whether a pattern accepts an argument.
fn accepts(pattern: Pattern, of: PgType) -> bool
    ensures { result ≡ accepts pattern of }
{
    !is_known(of) || accepts_known(pattern, of)
}

// Whether a pattern is an argument's own type.
fn is_exact(pattern: Pattern, of: PgType) -> bool
    ensures { result ≡ is_exact pattern of }
{
    match pattern {
        Pattern::Is(to) => is_known(of) && is_one_type(of, to),
        _ => false,
    }
}

// Whether a pattern is the preferred type of a known argument's category.
fn is_preferred(pattern: Pattern, of: PgType) -> bool
    ensures { result ≡ is_preferred pattern of }
{
    match pattern {
        Pattern::Is(to) => {
            is_known(of)
                && is_known(to)
                && preferred(to)
                && is_one_category(category(to), category(of))
        }
        _ => false,
    }
}

// Whether a pattern fits an argument.
fn fits(fit: Fit, pattern: Pattern, of: PgType) -> bool
    ensures { result ≡ Resolution.fits fit pattern of }
{
    match fit {
        Fit::Exact => is_exact(pattern, of),
        Fit::Accepting => accepts(pattern, of),
        Fit::Close => is_exact(pattern, of) || is_preferred(pattern, of),
        Fit::Assumed(guess) => is_known(of) || accepts(pattern, guess),
    }
}

/// Whether every pattern fits its argument.
pub fn all_fit(fit: Fit, inputs: &[Pattern], args: &[PgType]) -> bool
    ensures { result ≡ Resolution.all_fit fit inputs.now args.now }
{
    let count = inputs.len().min(args.len());
    for place in 0..count {
        if !fits(fit, inputs[place], args[place]) {
            return false;
        }
    }
    true
}

/// How many patterns fit their arguments.
pub fn count_fit(fit: Fit, inputs: &[Pattern], args: &[PgType]) -> usize
    ensures count { result ≡ Resolution.count_fit fit inputs.now args.now }
    ensures bound { result ≤ length args.now }
{
    let count = inputs.len().min(args.len());
    let mut fitting = 0;
    for place in 0..count {
        if fits(fit, inputs[place], args[place]) {
            fitting += 1;
        }
    }
    fitting
}
