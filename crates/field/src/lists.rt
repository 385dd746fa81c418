//! Tests of every number of a list.
ghost use Rattle.std.specs.Prelude.{◌≡◌};
ghost use Rattle.field.specs.Lists.{below, zeros};

/// Whether every number is below the limit. Nearly always all are, so it looks at all of them: without a way out, as
/// `all` has, the loop is turned into vector code.
#[tactic(auto, using(crate::proofs::Below::all_folded, std::proofs::lemmas::Grind::common_steps))]
pub fn all_below(numbers: &[u16], limit: u16) -> bool
    ensures { result ≡ below limit numbers.now }
{
    numbers
        .iter()
        .fold(true, |all, number| all & (*number < limit))
}

/// Whether every number is 0.
pub fn all_zero(numbers: &[u16]) -> bool
    ensures { result ≡ zeros numbers.now }
{
    numbers.iter().all(|number| *number == 0)
}
