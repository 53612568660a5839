// The lent row, and which refusal made it empty.
use super::shared::{ROOM, network};
use exchange::frames::Frame;
use exchange::requests::{Buffers, Request, Unanswered};
use handover::{Lender, lending};
use refusals::Told;

// Where call 8's buffers stand among handover's, as in the header.
const NEWER_PLACE: u32 = 2;

const STANDING_PLACE: u32 = 5;

// How many words are lent, or 65,535 where they are more than a matrix has room for.
fn length(part: &[u32]) -> u32 {
    let size = part.len();
    if ROOM < size { 65535 } else { size as u32 }
}

// Call 7: buffers a, standing and newer, row i; how many words are lent, and these.
pub fn lent_call(request: &Request<'_>, response: &mut Frame) -> Result<(), Unanswered> {
    let Buffers {
        first: a,
        second: standing,
        third: newer,
        ..
    } = request.buffers(3)?;
    let part = lending::lent_row(&network(request, a), standing, newer, request.from);
    response.put_told(Told::DONE);
    response.put(&[length(part)]);
    response.put(part);
    Ok(())
}

// Call 8: buffers a, standing and newer, row i; the buffer that lends, 2 the new one, 5 the standing one.
pub fn which_call(request: &Request<'_>, response: &mut Frame) -> Result<(), Unanswered> {
    let Buffers {
        first: a,
        second: standing,
        third: newer,
        ..
    } = request.buffers(3)?;
    let network = network(request, a);
    let lender = match lending::lender(&network, standing, newer, request.from) {
        Ok(Lender::Newer) => NEWER_PLACE,
        Ok(Lender::Standing) => STANDING_PLACE,
        Err(_) => 0,
    };
    let answer = lending::which_refusal(&network, standing, newer, request.from);
    response.put_told(Told::from(answer));
    response.put(&[lender]);
    Ok(())
}
