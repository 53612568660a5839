// Reads calls with their arguments and buffers from standard input, and writes answers and buffers, until the input ends.
// Frames are 32-bit words, the lowest byte first; the first word says how many follow.
// Request: call; language (count, then kind and limit of four places); n, m, mode, i, j; the length of each buffer; the buffers.
// Response: number, which, place; the values of the answer; every buffer that the call may write. It is the single word
// 4294967295 where a buffer is too long for this program. A request that does not add up ends the program.
#![tactic(auto)]

mod filed;
mod hopping;
mod lent;
mod printed;
mod report;
mod routing;
mod shared;
mod tabled;

use exchange::frames;
use exchange::frames::Frame;
use exchange::requests::{Request, Unanswered};
use std::io;
use std::io::Read;

// Puts the answer of one request, where it has one.
fn answer(words: &[u32], response: &mut Frame) -> Result<(), Unanswered> {
    let request = Request::read(words)?;
    // The numbers are the protocol's, which the independent implementation sends.
    match request.call {
        1 => report::laws_call(&request, response),
        2 => routing::fresh_call(&request, response),
        3 => routing::steps_call(&request, response),
        4 => routing::equation_call(&request, response),
        5 => tabled::forward_call(&request, response),
        6 => hopping::hop_call(&request, response),
        7 => lent::lent_call(&request, response),
        8 => lent::which_call(&request, response),
        9 => filed::read_call(&request, response),
        10 => printed::print_call(&request, response),
        _ => Err(Unanswered::NoRequest),
    }
}

// Reads one request into the room for its words and answers it in the frame; false where there is none.
fn serve(
    rt: &impl Print,
    input: &mut impl Read,
    words: &mut [u32],
    response: &mut Frame,
) -> io::Result<bool> {
    let request = frames::receive(input, words)?;
    response.clear();
    match answer(request, response) {
        Ok(()) => response.send(rt)?,
        Err(Unanswered::TooLong) => frames::send_too_long(rt)?,
        Err(Unanswered::NoRequest) => return Ok(false),
    }
    Ok(true)
}

// The words and the frame serve every request: made for each, they would take most of a small request's time.
fn main(rt: HostRuntime) -> io::Result<()> {
    let mut words = [0; 16384];
    let mut response = Frame::new();
    let mut input = rt.stdin();
    for _ in 0..1_000_000_000_000u64 {
        if !serve(&rt, &mut input, &mut words, &mut response)? {
            return Ok(());
        }
    }
    Ok(())
}
