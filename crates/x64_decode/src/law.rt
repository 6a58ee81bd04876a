//! The law of the instruction table.

ghost use Rattle.std.specs.Prelude.{◌≡◌, List, ℕ};
ghost use Rattle.cv_word.specs.Words.{AreBytes};
ghost use Rattle.x64_decode.specs.declared.instr.Instr.{Instr};
ghost use Rattle.x64_decode.specs.Spelling.{Spells};
ghost use Rattle.x64_decode.specs.Reading.{instruction_at};

/// The reading of bytes is the table read backwards: what is spelled is read, whatever follows, and what
/// is read is spelled. So each instruction has one spelling, and no spelling begins another.
pub fn table_law()
    ensures reads { (bytes : List ℕ) (i : Instr) → Spells bytes i → instruction_at bytes ≡ Some i }
    ensures spelled { (bytes : List ℕ) (i : Instr) → AreBytes bytes → instruction_at bytes ≡ Some i → Spells bytes i }
{}
