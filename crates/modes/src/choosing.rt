// The modes: which of them a number stands for, the largest t, and the law that hot needs.
ghost use Rattle.std.specs.Prelude.{◌≡◌};
ghost use Rattle.weights.specs.Languages.{components_of};
ghost use Rattle.modes.specs.Entries.{largest_t, mode_for, needs_c};

use super::{LARGEST_T, Mode};
use weights::Language;

// The mode of a number, where it fits the language and m destinations. The number is the file's and the C interface's.
pub fn mode_for(l: Language, m: usize, number: u32) -> Option<Mode>
    ensures { result ≡ mode_for (components_of l) m number }
{
    if m < 1 {
        return None;
    }
    match number {
        1 => Some(Mode::Plain),
        2 => Some(Mode::Hot),
        3 => Some(Mode::Cold),
        _ => None,
    }
}

// The largest t of a mode.
pub fn largest_t(mode: Mode) -> u32
    ensures { result ≡ largest_t mode }
{
    match mode {
        Mode::Plain => 0,
        Mode::Hot | Mode::Cold => LARGEST_T,
    }
}

// The mode needs law C besides D and U.
pub fn needs_c(mode: Mode) -> bool
    ensures { result ≡ needs_c mode }
{
    matches!(mode, Mode::Hot)
}
