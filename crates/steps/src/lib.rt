// The call that runs a list of steps, row steps and settles. It takes every input.
// `Given` and p, n, a, r stay a clause and arguments, as those of `row_step` and `settle`, which are public, are:
// with a struct no clause is plainer (docs/DESIGN-PASS.md).
#![tactic(auto)]

ghost use Rattle.std.specs.Prelude.{◌≡◌, true, [], ◌∷◌, map, ◌≤◌, length};
ghost use Rattle.refusals.specs.Cases.{check_of};
ghost use Rattle.weights.specs.Languages.{places_of};
ghost use Rattle.weights.specs.Sizes.{places};
ghost use Rattle.matrices.specs.Buffers.{matrix_in};
ghost use Rattle.matrices.specs.Steps.{Given};
ghost use Rattle.guards.specs.Checks.{is_step, many_case, list_case, most_steps};
ghost use Rattle.routes.specs.Calls.{step_of, step_fits, steps_row, steps_left, steps_said};
ghost use Rattle.routes.specs.Ready.{step_meant, step_left, AllSteps, run_left, run_done};

use guards::network::Network;
use numbers::Node;
use refusals::Refusal;
use routes::{FIRST_SETTLE, MOST_STEPS, Step, Stopped, checks};
use weights::Places;

// The step that a number means.
fn step_of(x: u32) -> Step
    ensures { step_meant result ≡ step_of x }
{
    if x < FIRST_SETTLE {
        return Step::Row(Node(x as usize));
    }
    Step::Settle(Node((x - FIRST_SETTLE) as usize))
}

fn is_step(n: usize, x: u32) -> bool
    ensures { result ≡ is_step n x }
{
    // Three ways out: by `||` and `&&` in one line the check of a list of row steps takes more than twice as long.
    if (x as usize) < n {
        return true;
    }
    if x < FIRST_SETTLE {
        return false;
    }
    ((x - FIRST_SETTLE) as usize) < n
}

// 13, then 7 at the first number that is no step.
fn check_list(n: usize, list: &[u32]) -> Result<(), Refusal>
    ensures { result ≡ check_of (many_case list.now ∷ list_case n list.now ∷ []) }
{
    if MOST_STEPS < list.len() {
        return Err(Refusal::TooMany { which: 0, place: 0 });
    }
    for (k, x) in list.iter().enumerate() {
        if !is_step(n, *x) {
            let place = k as u32;
            return Err(Refusal::NoSuch { which: 0, place });
        }
    }
    Ok(())
}

// One step; false where it is refused 11, and nothing is written then.
fn one_step(p: Places, n: usize, a: &[u32], r: &mut [u32], x: u32) -> bool
    requires { Given (places_of p) n a.now r.old × (is_step n x ≡ true) }
    ensures value { result ≡ step_fits (places_of p) n (matrix_in places n a.now) (matrix_in places n r.old) (step_of x) }
    ensures r_after { r.new ≡ step_left (places_of p) n a.now r.old (step_of x) }
{
    match step_of(x) {
        Step::Row(node) => rows::stepping::row_step(p, n, a, r, node),
        Step::Settle(node) => {
            columns::settling::settle(p, n, a, r, node);
            true
        }
    }
}

// Runs the steps in order up to the first that is refused, and says how many are done.
fn run(p: Places, n: usize, a: &[u32], r: &mut [u32], list: &[u32]) -> u32
    requires { Given (places_of p) n a.now r.old × AllSteps n list.now × (length list.now ≤ most_steps) }
    ensures value { result ≡ run_done (places_of p) n a.now r.old (map step_of list.now) }
    ensures r_after { r.new ≡ run_left (places_of p) n a.now r.old (map step_of list.now) }
{
    for (done, x) in list.iter().enumerate() {
        if !one_step(p, n, a, r, *x) {
            return done as u32;
        }
    }
    list.len() as u32
}

// Runs a list of steps on r. Refuses 3, 5, 4, 9, 10, 6 on A and R, 13, 7, and 11 while running: then the earlier steps stand.
pub fn steps(network: &Network<'_>, r: &mut [u32], list: &[u32]) -> Result<u32, Stopped>
    ensures answer { steps_said result ≡ steps_row network.now r.old list.now }
    ensures r_after { r.new ≡ steps_left network.now r.old list.now }
{
    let p = checks::ready(network, r)?;
    let n = network.n as usize;
    check_list(n, list)?;
    let done = run(p, n, network.arcs, r, list);
    if (done as usize) < list.len() {
        let refusal = Refusal::Sum {
            which: 0,
            place: done,
        };
        return Err(Stopped { refusal, done });
    }
    Ok(done)
}
