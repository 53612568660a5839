// The single checks that only forwarding has: 3 on m and on the mode, 9 on a table, 10 for law C. That of 6 on M is in `tables`, that of
// 12 in `forwarding`.
#![tactic(auto)]

ghost use Rattle.std.specs.Prelude.{◌≡◌};
ghost use Rattle.weights.specs.Languages.{places_of};
ghost use Rattle.table_guards.specs.Checks.{destinations_case, chosen_check, chosen_mode, table_length_measured, law_c_check};

use guards::MOST_NODES;
use modes::Mode;
use refusals::Refusal;
use weights::{ENTRY_WORDS, Places};

pub const MOST_DESTINATIONS: u32 = 32;

// 3: the number of destinations.
pub fn check_destinations(m: u32) -> Result<(), Refusal>
    ensures { result ≡ (destinations_case m).check }
{
    if MOST_DESTINATIONS < m {
        return Err(Refusal::Size { which: 2, place: 0 });
    }
    Ok(())
}

// 3: a mode was chosen.
pub fn check_mode(chosen: Option<Mode>) -> Result<(), Refusal>
    ensures { result ≡ chosen_check chosen }
{
    match chosen {
        Some(_) => Ok(()),
        None => Err(Refusal::Size { which: 3, place: 0 }),
    }
}

// The mode chosen; where none was, 3 is told before a mode is asked for.
pub fn chosen_mode(chosen: Option<Mode>) -> Mode
    ensures { result ≡ chosen_mode chosen }
{
    chosen.unwrap_or(Mode::Plain)
}

// 9: the words of a table; passed where n is over 16 or m over 32, since 3 is told before. Its twin is `check_length`: each is pinned
// by a definition of its own.
pub fn check_table_length(which: u32, n: u32, m: u32, s: &[u32]) -> Result<(), Refusal>
    ensures { result ≡ table_length_measured which n m s.now }
{
    if MOST_NODES < n || MOST_DESTINATIONS < m {
        return Ok(());
    }
    let row = m as usize * ENTRY_WORDS;
    let words = n as usize * row;
    if s.len() != words {
        return Err(Refusal::Length { which, place: 0 });
    }
    Ok(())
}

// 10: law C, where the mode needs it.
pub fn check_law_c(p: Places, mode: Mode) -> Result<(), Refusal>
    ensures { result ≡ law_c_check mode (places_of p) }
{
    if modes::choosing::needs_c(mode) && !laws::has_c(p) {
        return Err(Refusal::Law { which: 3, place: 0 });
    }
    Ok(())
}
