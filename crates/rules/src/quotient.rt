ghost use Rattle.std.specs.Prelude.{◌≡◌, ◌<◌};
ghost use Rattle.rules.specs.Formulas.{rounded_up};

/// `n` over `w`, rounded up: the closed forms of crossings end in such a quotient.
pub(crate) fn rounded_up(n: u64, w: u64) -> u64
    requires { 0 < w }
    ensures { result ≡ rounded_up n w }
{
    n.div_ceil(w)
}
