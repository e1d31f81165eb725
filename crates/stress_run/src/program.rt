//! The program of a stress run.

ghost use Rattle.std.specs.Prelude.{◌≡◌, IfOk, string_bytes};
ghost use Rattle.stress_run.specs.Program.{call, calls, ending, main_procedure, procedure, procedures, program_text};

use crate::draws::Draws;
use pn_types::NoMemory;
use std::alloc::Global;

/// Returns the call of a procedure.
#[tactic(auto, unfolding(crate::specs::Program::call))]
fn call(alloc: Global, number: u32) -> Result<String, NoMemory>
    ensures { IfOk result (λ text. string_bytes text ≡ call number) }
{
    Ok(format!(in alloc; "call w{number}\n")?)
}

/// Returns the calls of all procedures.
#[tactic(auto, using(crate::proofs::Texts::next_call, std::proofs::Common::append_assoc))]
fn calls(alloc: Global, procs: u32) -> Result<String, NoMemory>
    ensures { IfOk result (λ text. string_bytes text ≡ calls procs 0) }
{
    let mut text = String::new(alloc);
    for number in 0..procs {
        text.push_str(call(alloc, number)?.as_str())?;
    }
    Ok(text)
}

/// Returns the procedure that calls the others.
#[tactic(auto, unfolding(crate::specs::Program::main_procedure))]
fn main_procedure(alloc: Global, procs: u32) -> Result<String, NoMemory>
    ensures { IfOk result (λ text. string_bytes text ≡ main_procedure procs) }
{
    let calls = calls(alloc, procs)?;
    let text = format!(in alloc;
        ".proc main\n\
         li s1, 20\n\
         again:\n\
         {calls}\
         addi s1, s1, -1\n\
         beqz s1, fin\n\
         j again\n\
         fin:\n\
         li a0, 0\n\
         li a7, 93\n\
         ecall\n\
         .end\n"
    )?;
    Ok(text)
}

/// Returns what a procedure of this kind does after its loop.
#[tactic(auto, unfolding(crate::specs::Program::ending))]
fn ending(kind: u64) -> &'static str
    ensures { result.now ≡ ending kind }
{
    match kind {
        1 => "la a0, lock_a\ncall lock_acquire\nla a0, lock_a\ncall lock_release\n",
        2 => "li a0, 1\nla a1, lock_a\nli a2, 1\ncall write\n",
        _ => "",
    }
}

/// Returns a procedure with a loop of this length and this ending.
#[tactic(auto, unfolding(crate::specs::Program::procedure))]
fn procedure(alloc: Global, number: u32, length: u64, ending: &str) -> Result<String, NoMemory>
    ensures { IfOk result (λ text. string_bytes text ≡ procedure number length ending.now) }
{
    let text = format!(in alloc;
        ".proc w{number}\n\
         addi sp, sp, -16\n\
         sd ra, 0(sp)\n\
         li t1, {length}\n\
         loop{number}:\n\
         addi t1, t1, -1\n\
         bnez t1, loop{number}\n\
         {ending}\
         ld ra, 0(sp)\n\
         addi sp, sp, 16\n\
         ret\n\
         .end\n"
    )?;
    Ok(text)
}

/// Returns all procedures that are called. The length of each one's loop is drawn, and then its kind.
#[tactic(auto, using(crate::proofs::Texts::next_procedure, std::proofs::Common::append_assoc))]
fn procedures(alloc: Global, procs: u32, seed: u32) -> Result<String, NoMemory>
    ensures { IfOk result (λ text. string_bytes text ≡ procedures procs 0 seed) }
{
    let mut draws = Draws::of_seed(seed);
    let mut text = String::new(alloc);
    for number in 0..procs {
        let length = 1 + draws.draw(50);
        let kind = draws.draw(3);
        text.push_str(procedure(alloc, number, length, ending(kind))?.as_str())?;
    }
    Ok(text)
}

/// Returns the program of a stress run, as the assembler's text: `main` calls the procedures `w0`, `w1` and so on, `procs` of them,
/// 20 times over. Each of these runs a loop 1 to 50 times, and then does nothing, takes the lock `lock_a` and gives it back, or
/// writes a byte, as is drawn from the seed.
///
/// # Errors
///
/// `NoMemory` where memory runs out.
pub fn program_text(alloc: Global, procs: u32, seed: u32) -> Result<Vec<u8>, NoMemory>
    ensures { IfOk result (λ text. text.items ≡ program_text procs seed) }
{
    let main = main_procedure(alloc, procs)?;
    let called = procedures(alloc, procs, seed)?;
    let text = format!(in alloc;
        "{main}\
         .proc lock_acquire\n\
         li a1, 1\n\
         spin:\n\
         amoswap.d a2, a1, (a0)\n\
         bnez a2, spin\n\
         ret\n\
         .end\n\
         .proc lock_release\n\
         sd zero, 0(a0)\n\
         ret\n\
         .end\n\
         .proc write\n\
         li a7, 64\n\
         ecall\n\
         ret\n\
         .end\n\
         {called}\
         .data\n\
         .object lock_a 8\n\
         .dword 0\n"
    )?;
    Ok(text.into_bytes())
}
