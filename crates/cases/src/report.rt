// The law report: three held words, and twelve words for each law.
use exchange::frames::Frame;
use exchange::requests::{Request, Unanswered};
use laws::{Law, LawReport, Witness};
use refusals::Told;

// Puts the twelve words of a law: s, x and y.
fn put_law(response: &mut Frame, law: Law) {
    let Witness { s, x, y } = law.witness();
    for w in [s, x, y] {
        response.put(&[w.first, w.second, w.third, w.fourth]);
    }
}

// Puts the report of the three laws.
fn put_report(response: &mut Frame, laws: LawReport) {
    let LawReport { d, u, c } = laws;
    response.put(&[d, u, c].map(|law| law.is_held() as u32));
    put_law(response, d);
    put_law(response, u);
    put_law(response, c);
}

// Call 1; no buffer. On a refusal every value is 0.
pub fn laws_call(request: &Request<'_>, response: &mut Frame) -> Result<(), Unanswered> {
    request.buffers(0)?;
    match laws::laws(request.language) {
        Ok(laws) => {
            response.put_told(Told::DONE);
            put_report(response, laws);
        }
        Err(refusal) => {
            response.put_told(Told::from(refusal));
            response.put(&[0; 39]);
        }
    }
    Ok(())
}
