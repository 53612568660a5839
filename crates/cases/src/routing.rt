// Fresh, steps and the equation.
use super::shared::{ROOM, copy, network};
use exchange::frames::Frame;
use exchange::requests::{Buffers, Request, Unanswered};
use refusals::Told;
use routes::Stopped;

// Call 2: buffer r; no value, and r.
pub fn fresh_call(request: &Request<'_>, response: &mut Frame) -> Result<(), Unanswered> {
    let mut room = [0; ROOM];
    let r = copy(request.buffers(1)?.first, &mut room)?;
    let answer = routes::fresh::fresh(request.language, request.n, r);
    response.put_told(Told::from(answer));
    response.put(r);
    Ok(())
}

// Call 3: buffers a, r and the list; the steps done, on a refusal too, and r.
pub fn steps_call(request: &Request<'_>, response: &mut Frame) -> Result<(), Unanswered> {
    let Buffers {
        first: a,
        second: given,
        third: list,
        ..
    } = request.buffers(3)?;
    let mut room = [0; ROOM];
    let r = copy(given, &mut room)?;
    let (row, done) = match steps::steps(&network(request, a), r, list) {
        Ok(done) => (Told::DONE, done),
        Err(Stopped { refusal, done }) => (Told::from(refusal), done),
    };
    response.put_told(row);
    response.put(&[done]);
    response.put(r);
    Ok(())
}

// Call 4: buffers a and r; 1 where r satisfies the equation, else 0.
pub fn equation_call(request: &Request<'_>, response: &mut Frame) -> Result<(), Unanswered> {
    let Buffers {
        first: a,
        second: r,
        ..
    } = request.buffers(2)?;
    let (row, satisfied) = match routes::equation::equation(&network(request, a), r) {
        Ok(satisfied) => (Told::DONE, satisfied as u32),
        Err(refusal) => (Told::from(refusal), 0),
    };
    response.put_told(row);
    response.put(&[satisfied]);
    Ok(())
}
