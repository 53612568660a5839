// The calls that work out routes.
ghost use Rattle.std.specs.Prelude.{◌≡◌};
ghost use Rattle.door.specs.Languages.{language_of};
ghost use Rattle.guards.specs.OnNetwork.{on_network};
ghost use Rattle.routes.specs.Calls.{fresh_left, steps_left};
ghost use Rattle.tronglephu.specs.Calls.{fresh_reply, steps_reply, equation_reply};

use super::network;
use door::Reply;
use door::languages::language;
use door::replies::{answered, done, refused};

// Makes r the fresh matrix.
#[unsafe(no_mangle)]
pub extern "C" fn tronglephu_fresh(numbers: &[u16], n: u32, r: &mut [u32]) -> Reply
    ensures value { result ≡ fresh_reply (language_of numbers.now) n r.old }
    ensures r_after { r.new ≡ fresh_left (language_of numbers.now) n r.old }
{
    answered(routes::fresh::fresh(language(numbers), n, r))
}

// Runs a list of steps on r; the value is the steps done, on 11 too.
#[unsafe(no_mangle)]
pub extern "C" fn tronglephu_steps(
    numbers: &[u16],
    n: u32,
    a: &[u32],
    r: &mut [u32],
    list: &[u32],
) -> Reply
    ensures value { result ≡ steps_reply (on_network (language_of numbers.now) n a.now) r.old list.now }
    ensures r_after { r.new ≡ steps_left (on_network (language_of numbers.now) n a.now) r.old list.now }
{
    let network = network(numbers, n, a);
    match steps::steps(&network, r, list) {
        Ok(count) => done(count),
        Err(stopped) => refused(stopped.refusal, stopped.done),
    }
}

// Does r satisfy the routing equation? 1 yes, 0 no.
#[unsafe(no_mangle)]
pub extern "C" fn tronglephu_equation(numbers: &[u16], n: u32, a: &[u32], r: &[u32]) -> Reply
    ensures { result ≡ equation_reply (on_network (language_of numbers.now) n a.now) r.now }
{
    let network = network(numbers, n, a);
    match routes::equation::equation(&network, r) {
        Ok(yes) => done(yes as u32),
        Err(x) => refused(x, 0),
    }
}
