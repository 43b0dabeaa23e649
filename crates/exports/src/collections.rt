// For C: a year of verdicts in exact fractions (document 02, N11).
ghost use Rattle.std.specs.Prelude.{◌≡◌};
ghost use Rattle.figures.specs.Collections.{add_safe, add_other, join, mean_of, variance_of, share_of};

use figures::{Collected, Collection, Fraction};

#[unsafe(no_mangle)]
pub extern "C" fn hrafnolt_add_safe(c: Collection, entries: u64) -> Collected
    ensures { result ≡ add_safe c entries }
{
    figures::add_safe(c, entries)
}

#[unsafe(no_mangle)]
pub extern "C" fn hrafnolt_add_other(c: Collection) -> Collected
    ensures { result ≡ add_other c }
{
    figures::add_other(c)
}

#[unsafe(no_mangle)]
pub extern "C" fn hrafnolt_join(a: Collection, b: Collection) -> Collected
    ensures { result ≡ join a b }
{
    figures::join(a, b)
}

#[unsafe(no_mangle)]
pub extern "C" fn hrafnolt_mean(c: Collection) -> Fraction
    ensures { result ≡ mean_of c }
{
    figures::mean(c)
}

#[unsafe(no_mangle)]
pub extern "C" fn hrafnolt_variance(c: Collection) -> Fraction
    ensures { result ≡ variance_of c }
{
    figures::variance(c)
}

#[unsafe(no_mangle)]
pub extern "C" fn hrafnolt_share(c: Collection) -> Fraction
    ensures { result ≡ share_of c }
{
    figures::share(c)
}
