// A law report in words: twelve each for D, U and C, and which laws are held in one number.
ghost use Rattle.std.specs.Prelude.{◌≡◌, cond, ◌++◌, ◌+◌, ◌≤◌, length, drop};
ghost use Rattle.std.proofs.lemmas.List.Edits.{sets};
ghost use Rattle.weights.specs.PerPlace.{list_of};
ghost use Rattle.laws.specs.declared.Law.TheVariants.{BrokenBy};
ghost use Rattle.laws.specs.Report.{law_of};
ghost use Rattle.door.specs.Reports.{law_words, laws_words, report_words, held_number};

use super::storing::put_pair;
use laws::Witness;
use weights::PerPlace;

// Writes four words from `at` on.
fn put_words(s: &mut [u32], at: usize, w: PerPlace<u32>)
    requires { at + 4 ≤ length s.old }
    ensures { s.new ≡ sets s.old at (list_of w) }
{
    put_pair(s, at, w.first, w.second);
    put_pair(s, at + 2, w.third, w.fourth);
}

// Writes s, x and y from `at` on.
fn put_law(report: &mut [u32], at: usize, law: Witness)
    requires { at + 12 ≤ length report.old }
    ensures { report.new ≡ sets report.old at (law_words (law_of (BrokenBy law))) }
{
    put_words(report, at, law.s);
    put_words(report, at + 4, law.x);
    put_words(report, at + 8, law.y);
}

// Writes the words of three laws, whatever they are; the words after them stay.
pub fn put_laws(report: &mut [u32], d: Witness, u: Witness, c: Witness)
    requires { report_words ≤ length report.old }
    ensures { report.new ≡ laws_words (law_of (BrokenBy d)) (law_of (BrokenBy u)) (law_of (BrokenBy c)) ++ drop report_words report.old }
{
    put_law(report, 0, d);
    put_law(report, 12, u);
    put_law(report, 24, c);
}

// A law's number where it is held, else 0.
fn worth(held: bool, number: u32) -> u32
    ensures { (result ≡ cond held number 0) × (result ≤ number) }
{
    if held { number } else { 0 }
}

// 1 for D, 2 for U and 4 for C, added where the law is held.
pub fn held_laws(d: bool, u: bool, c: bool) -> u32
    ensures { result ≡ held_number d u c }
{
    worth(d, 1) + worth(u, 2) + worth(c, 4)
}
