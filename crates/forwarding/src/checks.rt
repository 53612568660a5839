// What forwarding checks after the entrance, in 01's order: 10 for law C, 6, 12.
// `Measured` stays a clause, and what it is about arguments: `check_contents` is public, and a type with it would ask more of a caller;
// with a struct of the arguments no clause is plainer (docs/DESIGN-PASS.md).
ghost use Rattle.std.specs.Prelude.{◌≡◌};
ghost use Rattle.weights.specs.Languages.{places_of};
ghost use Rattle.matrices.specs.Steps.{Given};
ghost use Rattle.table_guards.specs.Checks.{solves_case};
ghost use Rattle.forwarding.specs.Ready.{Measured, contents_check};

use matrices::checks::first_malformed;
use modes::Mode;
use refusals::Refusal;
use table_guards::check_law_c;
use tables::checks::first_malformed_entry;
use weights::{ARC_SUM, MATRIX_SUM, Places};

// 12: R satisfies R = (A join R) best fresh.
fn check_equation(p: Places, n: usize, a: &[u32], r: &[u32]) -> Result<(), Refusal>
    requires { Given (places_of p) n a.now r.now }
    ensures { result ≡ (solves_case (places_of p) n a.now r.now).check }
{
    if !rows::equation::solves(p, n, a, r) {
        return Err(Refusal::Equation { which: 2, place: 0 });
    }
    Ok(())
}

// 10 for C, 6 on A, R and M, then 12, which needs well-formed matrices.
pub fn check_contents(
    p: Places,
    mode: Mode,
    n: usize,
    m: usize,
    a: &[u32],
    r: &[u32],
    mapping: &[u32],
) -> Result<(), Refusal>
    requires { Measured (places_of p) n m a.now r.now mapping.now }
    ensures { result ≡ contents_check mode (places_of p) n m a.now r.now mapping.now }
{
    check_law_c(p, mode)?;
    first_malformed(p, ARC_SUM, 1, n, a)?;
    first_malformed(p, MATRIX_SUM, 2, n, r)?;
    first_malformed_entry(p, mode, ARC_SUM, 3, n, m, mapping)?;
    check_equation(p, n, a, r)
}
