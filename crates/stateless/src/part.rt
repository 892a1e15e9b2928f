// The commands on a part of the memory: entries written and read, the completion reader, and bytes filled in.
ghost use Rattle.std.specs.Prelude.{◌≡◌, ◌∷◌, [], ◌≤◌, ◌<◌, length, IfSome};
ghost use Rattle.rules.specs.Refusal.{by_number, code};
ghost use Rattle.entry.specs.Submission.{submission_answer};
ghost use Rattle.entry.specs.Completion.{completion_answer};
ghost use Rattle.ring.specs.Reader.{waiting_answer};
ghost use Rattle.controller.specs.Controller.{Controller};
ghost use Rattle.language.specs.declared.command.OnPart.TheVariants as P;
ghost use Rattle.language.specs.Vocabulary.{on_part_form};
ghost use Rattle.language.specs.Replies as s;
ghost use Rattle.language.specs.Commands.{submission_of, submission_numbers, completion_numbers, both, on_part, parts_used};
ghost use Rattle.stateless.specs.Leaving.{Says, Narrow, firsts, heard, heard_or_bad};

use crate::place::part_of;
use crate::reply::{Reply, changed, told, told_number};
use entry::completion::Completion;
use entry::submission::Submission;
use language::command::OnPart;
use language::sizes::NUMBERS;
use rules::refusal::{Refusal, code};

// The entry that the numbers of a line give, behind place and room.
fn submission_of(a: &[u64; NUMBERS]) -> Submission
    requires { Narrow (on_part_form P.WriteSqe) 0 a.now }
    ensures { result ≡ submission_of (firsts 16 0 a.now) }
{
    Submission {
        opc: a[2] as u8,
        fuse: a[3],
        psdt: a[4],
        cid: a[5] as u16,
        nsid: a[6] as u32,
        mptr: a[7],
        prp1: a[8],
        prp2: a[9],
        slba: a[10],
        nlb: a[11] as u16,
        cdw12_upper: a[12] as u16,
        cdw13: a[13] as u32,
        cdw14: a[14] as u32,
        cdw15: a[15] as u32,
    }
}

fn of_submission(answer: Result<Submission, Refusal>) -> Reply
    ensures { Says (s.told (submission_numbers (submission_answer (by_number answer)))) result }
{
    match answer {
        Ok(e) => told(&[
            0,
            e.opc as u64,
            e.fuse,
            e.psdt,
            e.cid as u64,
            e.nsid as u64,
            e.mptr,
            e.prp1,
            e.prp2,
            e.slba,
            e.nlb as u64,
            e.cdw12_upper as u64,
            e.cdw13 as u64,
            e.cdw14 as u64,
            e.cdw15 as u64,
        ]),
        Err(refusal) => told_number(refusal.number(), 15),
    }
}

fn of_completion(answer: Result<(Completion, u8), Refusal>) -> Reply
    ensures { Says (s.told (completion_numbers (completion_answer (by_number answer)))) result }
{
    match answer {
        Ok((e, phase)) => told(&[
            0,
            e.result as u64,
            e.sqhd as u64,
            e.sqid as u64,
            e.cid as u64,
            e.status as u64,
            phase as u64,
        ]),
        Err(refusal) => told_number(refusal.number(), 7),
    }
}

fn of_waiting(answer: Result<u64, Refusal>) -> Reply
    ensures { Says (s.told (both (waiting_answer (by_number answer)))) result }
{
    match answer {
        Ok(n) => told(&[0, n]),
        Err(refusal) => told_number(refusal.number(), 2),
    }
}

fn write_cqe(part: &mut [u8], a: &[u64; NUMBERS]) -> Result<(), Refusal>
    requires { Narrow (on_part_form P.WriteCqe) 0 a.now }
    ensures { (s.changed (code result ∷ []), part.new) ≡ on_part P.WriteCqe (firsts 8 0 a.now) part.old }
{
    entry::completion::write(
        part,
        a[2] as u32,
        a[3] as u16,
        a[4] as u16,
        a[5] as u16,
        a[6],
        a[7],
    )
}

fn on_part(part: &mut [u8], k: OnPart, a: &[u64; NUMBERS]) -> Reply
    requires { Narrow (on_part_form k) 0 a.now }
    ensures { ((heard result, part.new) ≡ on_part k (firsts (length (on_part_form k)) 0 a.now) part.old)
        × (result.count ≤ 16) }
{
    match k {
        OnPart::Fill => {
            part.fill(a[2] as u8);
            told(&[part.len() as u64])
        }
        OnPart::WriteSqe => changed(code(entry::submission::write(part, submission_of(a))), 1),
        OnPart::ReadSqe => of_submission(entry::submission::read(part)),
        OnPart::WriteCqe => changed(code(write_cqe(part, a)), 1),
        OnPart::ReadCqe => of_completion(entry::completion::read(part)),
        OnPart::Waiting => of_waiting(ring::reader::read(part, a[2], a[3], a[4])),
    }
}

// A command whose first two numbers are the place and the room of a part of the memory; None where the line is a bad one.
pub fn in_memory(memory: &mut [u8], k: OnPart, a: &[u64; NUMBERS]) -> Option<Reply>
    requires { Narrow (on_part_form k) 0 a.now }
    ensures { ((c : Controller) → s.reply (heard_or_bad result) c memory.new
        ≡ parts_used c memory.old k (firsts (length (on_part_form k)) 0 a.now)) × IfSome result (λ r. r.count ≤ 16) }
{
    let (from, to) = part_of(memory, a[0], a[1])?;
    Some(on_part(&mut memory[from..to], k, a))
}
