// The next hop.
use super::shared::network;
use exchange::frames::Frame;
use exchange::requests::{Buffers, Request, Unanswered};
use hops::next_hop::next_hop;
use refusals::Told;

// Call 6: buffers a and r, from i to j; 1 and the node (65,535 at most), or 0 and 0.
pub fn hop_call(request: &Request<'_>, response: &mut Frame) -> Result<(), Unanswered> {
    let Buffers {
        first: a,
        second: r,
        ..
    } = request.buffers(2)?;
    let (row, hop) = match next_hop(&network(request, a), r, request.from, request.to) {
        Ok(Some(node)) => (Told::DONE, [1, node.0.min(65535) as u32]),
        Ok(None) => (Told::DONE, [0, 0]),
        Err(refusal) => (Told::from(refusal), [0, 0]),
    };
    response.put_told(row);
    response.put(&hop);
    Ok(())
}
