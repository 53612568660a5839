// Words stored two by two, as a kind stands with its limit. The room stays a clause: the functions are public, and a type with it would ask
// more of a caller.
ghost use Rattle.std.specs.Prelude.{◌≡◌, ◌∷◌, [], ◌+◌, ◌≤◌, length};
ghost use Rattle.std.proofs.lemmas.List.Edits.{sets};

// Writes two words from `at` on.
pub fn put_pair(s: &mut [u32], at: usize, first: u32, second: u32)
    requires { at + 2 ≤ length s.old }
    ensures { s.new ≡ sets s.old at (first ∷ second ∷ []) }
{
    s[at] = first;
    s[at + 1] = second;
}
