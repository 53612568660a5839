// The problem file's reader.
use super::shared::{ROOM, TABLE_ROOM, copy};
use exchange::frames::{Frame, low_byte};
use exchange::requests::{Buffers, Request, Unanswered};
use files::Problem;
use refusals::Told;
use weights::{Component, Language};

// What is answered where nothing is read.
const UNREAD: Problem = Problem {
    n: 0,
    m: 0,
    mode: 0,
    language: Language::NONE,
};

// The bytes of a file that has one in each word, its lowest, at the start of the room for them.
pub fn to_bytes<'b>(words: &[u32], room: &'b mut [u8]) -> Result<&'b [u8], Unanswered> {
    let size = words.len();
    if room.len() < size {
        return Err(Unanswered::TooLong);
    }
    let bytes = &mut room[..size];
    for (byte, word) in bytes.iter_mut().zip(words) {
        *byte = low_byte(*word);
    }
    Ok(bytes)
}

// Puts kind and limit, 0 where the kind has none, in the numbers of the protocol.
fn put_component(response: &mut Frame, c: Component) {
    let words = match c {
        Component::Dist => [1, 0],
        Component::Width(limit) => [2, limit as u32],
        Component::Class(limit) => [3, limit as u32],
        Component::Gain => [4, 0],
    };
    response.put(&words);
}

// Puts n, m, mode, the count, and kind and limit of the four places.
fn put_problem(response: &mut Frame, problem: Problem) {
    let l = problem.language;
    response.put(&[problem.n, problem.m, problem.mode, l.count]);
    for c in [l.first, l.second, l.third, l.fourth] {
        put_component(response, c);
    }
}

// Call 9: buffers file (a byte in each word), arcs and mapping; n, m, mode, the language's nine words, arcs and mapping.
pub fn read_call(request: &Request<'_>, response: &mut Frame) -> Result<(), Unanswered> {
    let Buffers {
        first: file,
        second: given_arcs,
        third: given_mapping,
        ..
    } = request.buffers(3)?;
    let mut bytes = [0; 65536];
    let file = to_bytes(file, &mut bytes)?;
    let mut arcs_room = [0; ROOM];
    let arcs = copy(given_arcs, &mut arcs_room)?;
    let mut mapping_room = [0; TABLE_ROOM];
    let mapping = copy(given_mapping, &mut mapping_room)?;
    let (row, problem) = match files::reading::read(file, arcs, mapping) {
        Ok(problem) => (Told::DONE, problem),
        Err(refusal) => (Told::from(refusal), UNREAD),
    };
    response.put_told(row);
    put_problem(response, problem);
    response.put(arcs);
    response.put(mapping);
    Ok(())
}
