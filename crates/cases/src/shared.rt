// What the calls share: the network of a request, and copies of the buffers that a call may write.
use exchange::requests::{Request, Unanswered};
use guards::network::Network;

// The room for a matrix that a call writes.
pub const ROOM: usize = 1280;

// The room for a table that a call writes.
pub const TABLE_ROOM: usize = 2816;

pub fn network<'b>(request: &Request<'_>, arcs: &'b [u32]) -> Network<'b> {
    Network {
        language: request.language,
        n: request.n,
        arcs,
    }
}

// A copy of a buffer, at the start of the room for it.
pub fn copy<'b>(given: &[u32], room: &'b mut [u32]) -> Result<&'b mut [u32], Unanswered> {
    let size = given.len();
    if room.len() < size {
        return Err(Unanswered::TooLong);
    }
    let copy = &mut room[..size];
    copy.copy_from_slice(given);
    Ok(copy)
}
