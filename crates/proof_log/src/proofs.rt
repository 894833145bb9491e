// The text of proofs.
ghost use Rattle.std.specs.Prelude.{◌≡◌, ◌++◌, OnOk, map};
ghost use Rattle.proof_log.specs.LogText.{list_text, proof_text, proof_words};
ghost use Rattle.proof_log.specs.Words.{AreInRange, list_of};

use crate::forms::{put_form, put_forms, put_term};
use crate::line::{put_number, put_small, put_word};
use kernel::Proof;
use std::alloc::AllocError;

// Appends the text of a proof: a row for each node.
#[cycle(put_proof)]
pub fn put_proof(proof: &Proof, text: &mut Vec<u8>) -> Result<(), AllocError>
    ensures text { OnOk result (text.new.items ≡ text.old.items ++ proof_text proof.now) }
    ensures in_range { OnOk result (AreInRange (proof_words proof.now)) }
{
    match proof {
        Proof::Line(line) => {
            put_word(text, b"line")?;
            put_number(text, *line)
        }
        Proof::Hyp(hypothesis) => {
            put_word(text, b"hyp")?;
            put_small(text, *hypothesis)
        }
        Proof::AndI(parts) => {
            put_word(text, b"andi")?;
            put_proofs(parts.as_slice(), text)
        }
        Proof::AndE(member, part) => {
            put_word(text, b"ande")?;
            put_small(text, *member)?;
            put_proof(part.get(), text)
        }
        Proof::OrI(members, member, part) => {
            put_word(text, b"ori")?;
            put_forms(members.as_slice(), text)?;
            put_small(text, *member)?;
            put_proof(part.get(), text)
        }
        Proof::OrE(goal, part, cases) => {
            put_word(text, b"ore")?;
            put_form(goal.get(), text)?;
            put_proof(part.get(), text)?;
            put_proofs(cases.as_slice(), text)
        }
        Proof::ImpI(form, part) => {
            put_word(text, b"impi")?;
            put_form(form.get(), text)?;
            put_proof(part.get(), text)
        }
        Proof::ImpE(left, right) => {
            put_word(text, b"impe")?;
            put_proof(left.get(), text)?;
            put_proof(right.get(), text)
        }
        Proof::NotI(form, part) => {
            put_word(text, b"noti")?;
            put_form(form.get(), text)?;
            put_proof(part.get(), text)
        }
        Proof::NotE(left, right) => {
            put_word(text, b"note")?;
            put_proof(left.get(), text)?;
            put_proof(right.get(), text)
        }
        Proof::Raa(form, part) => {
            put_word(text, b"raa")?;
            put_form(form.get(), text)?;
            put_proof(part.get(), text)
        }
        Proof::IffI(left, right, forth, back) => {
            put_word(text, b"iffi")?;
            put_form(left.get(), text)?;
            put_form(right.get(), text)?;
            put_proof(forth.get(), text)?;
            put_proof(back.get(), text)
        }
        Proof::IffL(left, right) => {
            put_word(text, b"iffl")?;
            put_proof(left.get(), text)?;
            put_proof(right.get(), text)
        }
        Proof::IffR(left, right) => {
            put_word(text, b"iffr")?;
            put_proof(left.get(), text)?;
            put_proof(right.get(), text)
        }
        Proof::AllI(sort, part) => {
            put_word(text, b"alli")?;
            put_small(text, *sort)?;
            put_proof(part.get(), text)
        }
        Proof::AllE(term, part) => {
            put_word(text, b"alle")?;
            put_term(term.get(), text)?;
            put_proof(part.get(), text)
        }
        Proof::ExI(sort, form, term, part) => {
            put_word(text, b"exi")?;
            put_small(text, *sort)?;
            put_form(form.get(), text)?;
            put_term(term.get(), text)?;
            put_proof(part.get(), text)
        }
        Proof::ExE(goal, left, right) => {
            put_word(text, b"exe")?;
            put_form(goal.get(), text)?;
            put_proof(left.get(), text)?;
            put_proof(right.get(), text)
        }
        Proof::Refl(term) => {
            put_word(text, b"refl")?;
            put_term(term.get(), text)
        }
        Proof::Subst(sort, form, left, right) => {
            put_word(text, b"subst")?;
            put_small(text, *sort)?;
            put_form(form.get(), text)?;
            put_proof(left.get(), text)?;
            put_proof(right.get(), text)
        }
        Proof::Inhabit(sort, goal, part) => {
            put_word(text, b"inhabit")?;
            put_small(text, *sort)?;
            put_form(goal.get(), text)?;
            put_proof(part.get(), text)
        }
    }
}

// Appends how many proofs there are, and then their texts.
#[cycle(put_proof)]
fn put_proofs(proofs: &[Proof], text: &mut Vec<u8>) -> Result<(), AllocError>
    ensures text { OnOk result (text.new.items ≡ text.old.items ++ list_text (map proof_text proofs.now)) }
    ensures in_range { OnOk result (AreInRange (list_of (map proof_words proofs.now))) }
{
    put_number(text, proofs.len() as u64)?;
    for proof in proofs {
        put_proof(proof, text)?;
    }
    Ok(())
}
