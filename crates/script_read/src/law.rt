//! What holds of the lines of every script.

ghost use Rattle.std.specs.Prelude.{◌≡◌, ℕ, List, true, Ok, Err};
ghost use Rattle.fsa_model.specs.Fault.{Fault};
ghost use Rattle.fsa_model.specs.Generator.{generated, generated_text};
ghost use Rattle.fsa_model.specs.Lines.{Line, line_of};
ghost use Rattle.fsa_model.specs.Script.{script_of};
ghost use Rattle.fsa_model.specs.ScriptText.{SpellsScript};
ghost use Rattle.fsa_model.specs.Setup.{Script};
ghost use Rattle.fsa_model.specs.Soundness.{IsLeast};
ghost use Rattle.fsa_model.specs.Spelled.{Spells};
ghost use Rattle.fsa_model.specs.Spelling.{is_line, line_text};

/// The text of a line is read as that line, no text is that of two lines, and just those bytes are read
/// as a line that write it: its text, but for units of a path that are written as escapes.
pub fn one_reading()
    ensures again { (line : Line) → is_line line ≡ true → line_of (line_text line) ≡ Ok line }
    ensures only { (left right : Line) → is_line left ≡ true → is_line right ≡ true → line_text left ≡ line_text right → left ≡ right }
    ensures spelled { (bytes : List ℕ) (line : Line) → is_line line ≡ true → Spells line bytes → line_of bytes ≡ Ok line }
    ensures back { (bytes : List ℕ) (line : Line) → line_of bytes ≡ Ok line → (is_line line ≡ true) × Spells line bytes }
{}

/// The faulty line is the least that is not sound: some script begins with the lines before it, and
/// none with those lines and it, where it has a line feed.
pub fn least_fault()
    ensures { (bytes : List ℕ) (fault : Fault) → script_of bytes ≡ Err fault → IsLeast bytes fault }
{}

/// Just those bytes are read as a script that write it, and none at fault writes any.
pub fn a_script_is_read_from_what_spells_it()
    ensures spelled { (bytes : List ℕ) (script : Script) → SpellsScript bytes script → script_of bytes ≡ Ok script }
    ensures back { (bytes : List ℕ) (script : Script) → script_of bytes ≡ Ok script → SpellsScript bytes script }
    ensures none { (bytes : List ℕ) (fault : Fault) (script : Script) → script_of bytes ≡ Err fault → ¬ SpellsScript bytes script }
{}

/// The text of the generated script of a seed is read as that script.
pub fn a_generated_script_is_read()
    ensures { (seed : ℕ) → script_of (generated_text seed) ≡ Ok (generated seed) }
{}
