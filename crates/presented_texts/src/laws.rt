//! Laws of texts that present derivations, shown by functions that do nothing.
ghost use Rattle.std.specs.Prelude.{◌≡◌, ◌<◌, ◌≤◌, ◌++◌, ℕ, List, true, length};
ghost use Rattle.std.specs.List.{list_all};
ghost use Rattle.canon_print.specs.Canonical.{canonical_text};
ghost use Rattle.derivation_items.specs.Items.{typing_items};
ghost use Rattle.tptp_base.specs.Place.{is_no_line_feed};
ghost use Rattle.tptp_base.specs.declared.item.Item.{Item as AnyItem};
ghost use Rattle.tptp_base.specs.declared.item.Typing.{Typing as TypeLine};
ghost use Rattle.tptp_base.specs.declared.read.TheConstants.{FILE_SIZE};
ghost use Rattle.tptp_commands.specs.Presented.{proof_text};
ghost use Rattle.presented_texts.specs.Presented.{SpellsSame};
ghost use Rattle.spelled_items.specs.Writable.{AreWritable, is_typing};

/// The text that presents a derivation has a part that spells its items, but for their places, and these nest no deeper
/// than they may. The items are type lines and lines that can be written, and their text is no longer than a file may be.
pub fn a_proof_text_spells_its_items()
    ensures { (file status : List ℕ) (typings : List TypeLine) (lines : List AnyItem)
        → list_all is_no_line_feed status ≡ true → 0 < length file
        → length typings ≤ 1048576 → list_all is_typing typings ≡ true → AreWritable file lines
        → length (canonical_text (typing_items 0 typings ++ lines)) ≤ FILE_SIZE
        → SpellsSame (proof_text file status (typing_items 0 typings ++ lines)) (typing_items 0 typings ++ lines) }
{}
