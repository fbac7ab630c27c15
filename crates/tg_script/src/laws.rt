//! Laws of the definitions alone. A function here does nothing. Its `ensures` is the law.
ghost use Rattle.std.specs.Prelude.{◌≡◌, ℕ, List};
ghost use Rattle.tg_text.specs.declared.line.Line.{Line};
ghost use Rattle.tg_script.specs.Script.{Scene, IsOutput, IsAdmissible};

/// If memory never ran out, an admissible text is exactly the output.
#[tactic(auto, using(crate::proofs::OutputLaws::is_output))]
pub fn admissible_without_wants_is_the_output()
    ensures { (s : Scene) (lines : List Line) (text : List ℕ) → IsAdmissible s lines 0 text → IsOutput s lines text }
{}

/// The output is one text.
#[tactic(auto, using(crate::proofs::OutputLaws::outputs_same))]
pub fn output_is_deterministic()
    ensures { (s : Scene) (lines : List Line) (text other : List ℕ) → IsOutput s lines text → IsOutput s lines other → text ≡ other }
{}
