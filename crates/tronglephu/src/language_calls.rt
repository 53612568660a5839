// The calls that are given no network: the reader of problem files and the law report.
ghost use Rattle.std.specs.Prelude.{◌≡◌};
ghost use Rattle.door.specs.Languages.{language_of};
ghost use Rattle.tronglephu.specs.Calls.{room_check, read_reply, arcs_left, mapping_left, problem_left, laws_reply, report_left};

use door::languages::language;
use door::problems::put_problem;
use door::replies::{done, refused};
use door::reports::{held_laws, put_laws};
use door::{PROBLEM_WORDS, REPORT_WORDS, Reply};
use laws::LawReport;
use refusals::Refusal;

// 9 on arcs, mapping and problem.
fn check_room(arcs: &[u32], mapping: &[u32], problem: &[u32]) -> Result<(), Refusal>
    ensures { result ≡ room_check arcs.now mapping.now problem.now }
{
    if arcs.len() < 1024 {
        return Err(Refusal::Length { which: 1, place: 0 });
    }
    if mapping.len() < 2560 {
        return Err(Refusal::Length { which: 3, place: 0 });
    }
    if problem.len() < PROBLEM_WORDS {
        return Err(Refusal::Length { which: 6, place: 0 });
    }
    Ok(())
}

// Reads a problem file: its arcs, its mapping, and its twelve words n, m, mode and language.
#[unsafe(no_mangle)]
pub extern "C" fn tronglephu_read(
    file: &[u8],
    arcs: &mut [u32],
    mapping: &mut [u32],
    problem: &mut [u32],
) -> Reply
    ensures value { result ≡ read_reply file.now arcs.old mapping.old problem.old }
    ensures arcs_after { arcs.new ≡ arcs_left file.now arcs.old mapping.old problem.old }
    ensures mapping_after { mapping.new ≡ mapping_left file.now arcs.old mapping.old problem.old }
    ensures problem_after { problem.new ≡ problem_left file.now arcs.old mapping.old problem.old }
{
    if let Err(x) = check_room(arcs, mapping, problem) {
        return refused(x, 0);
    }
    match files::reading::read(file, arcs, mapping) {
        Ok(read) => {
            put_problem(problem, read.n, read.m, read.mode, read.language);
            done(0)
        }
        Err(x) => refused(x, 0),
    }
}

// The law report; the value is 1 for D, 2 for U and 4 for C, added where the law is held.
#[unsafe(no_mangle)]
pub extern "C" fn tronglephu_laws(numbers: &[u16], report: &mut [u32]) -> Reply
    ensures value { result ≡ laws_reply (language_of numbers.now) report.old }
    ensures report_after { report.new ≡ report_left (language_of numbers.now) report.old }
{
    match laws::laws(language(numbers)) {
        Err(x) => refused(x, 0),
        Ok(LawReport { d, u, c }) => {
            if report.len() < REPORT_WORDS {
                return refused(Refusal::Length { which: 6, place: 0 }, 0);
            }
            put_laws(report, d.witness(), u.witness(), c.witness());
            done(held_laws(d.is_held(), u.is_held(), c.is_held()))
        }
    }
}
