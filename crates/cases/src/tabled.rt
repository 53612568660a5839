// Forwarding.
use super::shared::{TABLE_ROOM, copy, network};
use exchange::frames::Frame;
use exchange::requests::{Buffers, Request, Unanswered};
use forwarding::Tables;
use refusals::Told;

// Call 5: buffers a, r, mapping and f; no value, and f.
pub fn forward_call(request: &Request<'_>, response: &mut Frame) -> Result<(), Unanswered> {
    let Buffers {
        first: a,
        second: routes,
        third: mapping,
        fourth: given,
    } = request.buffers(4)?;
    let mut room = [0; TABLE_ROOM];
    let f = copy(given, &mut room)?;
    let tables = Tables {
        network: network(request, a),
        m: request.m,
        mode: request.mode,
        routes,
        mapping,
    };
    response.put_told(Told::from(forwarding::forward::forward(&tables, f)));
    response.put(f);
    Ok(())
}
