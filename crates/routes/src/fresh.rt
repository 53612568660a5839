// The call that writes the fresh matrix.
ghost use Rattle.std.specs.Prelude.{◌≡◌};
ghost use Rattle.refusals.specs.Checks.{answer_told};
ghost use Rattle.routes.specs.Calls.{fresh_check, fresh_left};

use guards::entrance::enter;
use guards::{check_length, check_nodes};
use refusals::Refusal;
use weights::Language;

// Makes r the fresh matrix: units on the diagonal, no route elsewhere. Refuses 3, 5, 4, 9, 10.
pub fn fresh(l: Language, n: u32, r: &mut [u32]) -> Result<(), Refusal>
    ensures answer { answer_told result ≡ answer_told (fresh_check l n r.old) }
    ensures r_after { r.new ≡ fresh_left l n r.old }
{
    let p = enter(l, check_nodes(n), check_length(2, n, r))?;
    matrices::fresh::fresh(p, n as usize, r);
    Ok(())
}
