// The entrance of every call on a network: what all of them check, in 01's order, before what a call has besides.
ghost use Rattle.guards.specs.Entrance.{Enters};

use super::check_laws;
use refusals::Refusal;
use weights::{Language, Places};

// 3, 5, 4, 9, 10, where the call has checked its own sizes and lengths: the language in its places, or the first refusal.
pub fn enter(
    l: Language,
    sizes: Result<(), Refusal>,
    lengths: Result<(), Refusal>,
) -> Result<Places, Refusal>
    ensures { Enters l sizes lengths result }
{
    sizes?;
    let p = placing::check(l)?;
    lengths.and(check_laws(p))?;
    Ok(p)
}
