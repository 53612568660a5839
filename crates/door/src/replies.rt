// An answer in four numbers.
ghost use Rattle.std.specs.Prelude.{◌≡◌};
ghost use Rattle.refusals.specs.Told as table;
ghost use Rattle.refusals.specs.Checks.{answer_told};
ghost use Rattle.door.specs.Replies.{reply_of};

use super::Reply;
use refusals::{Refusal, Told};

// A row, with the one number that the call gives.
fn reply(told: Told, value: u32) -> Reply
    ensures { result ≡ reply_of told value }
{
    let Told {
        number,
        which,
        place,
    } = told;
    Reply {
        number,
        which,
        place,
        value,
    }
}

// Done, with the one number that the call gives.
pub fn done(value: u32) -> Reply
    ensures { result ≡ reply_of table.done value }
{
    reply(Told::DONE, value)
}

// A refusal, with the one number that the call gives. Each call has its arm for it: one function of a Result
// would want the call's number made by a closure first.
pub fn refused(r: Refusal, value: u32) -> Reply
    ensures { result ≡ reply_of (table.told r) value }
{
    reply(Told::from(r), value)
}

// The answer of a call that gives no number.
pub fn answered(a: Result<(), Refusal>) -> Reply
    ensures { result ≡ reply_of (answer_told a) 0 }
{
    reply(Told::from(a), 0)
}
