//! Laws of decisions and steps on a content, against the graph that it represents. A function here does nothing: what
//! it ensures is the law.
//!
//! So a store may decide on a heap by its content, and change the content as the rules say. It then answers as the
//! graph that was never collected does, and goes on as this graph does. The proofs of the crates above cite the lemmas
//! from which the laws follow, which are in `proofs/StandingLaws.antt` of `tg_graph`.
ghost use Rattle.std.specs.Prelude.{◌↔◌, ℕ};
ghost use Rattle.tg_model.specs.Graph.{ProtectionGraph};
ghost use Rattle.tg_model.specs.declared.command.Command.{Command};
ghost use Rattle.tg_rows.specs.Content.{Content, IsNamed};
ghost use Rattle.tg_graph.specs.Standing.{IsContentOf};
ghost use Rattle.tg_rules.specs.Effect.{ChangesNothing, IsLook, OnlyLooks};
ghost use Rattle.tg_rules.specs.Laws.{AnswersAsContent, CreatesAsContent, DeniesAsContent, RefusesAsContent, RepliesAsContent, ServesAsContent, SpawnsAsContent, StandsForMaker, StandsForSubject, StaysWhereDenied, StaysWhereFull};

/// The denial of a subject's command is the same on a content as on the graph that it represents. The graph's answer is
/// that denial, or else the reply. It is computed on the content with the graph's number of vertices ever made.
pub fn decisions_on_a_content_are_its_graphs()
    ensures denial { (c : Content) (g : ProtectionGraph) (x : ℕ) → StandsForSubject c g x → DeniesAsContent c g x }
    ensures answer { (c : Content) (g : ProtectionGraph) (x : ℕ) → StandsForSubject c g x → AnswersAsContent c g x }
    ensures served { (c : Content) (g : ProtectionGraph) (x : ℕ) → StandsForSubject c g x → RepliesAsContent c g x }
    ensures denied { (c : Content) (g : ProtectionGraph) (x : ℕ) → StandsForSubject c g x → RefusesAsContent c g x }
{}

/// A content that is changed as the rules say represents the next graph. This holds if a command is served, and if an
/// object or a subject is made. If a command is denied, or no more vertices may be made, the content that stays as it
/// is represents the next graph. The next name is new to the content.
pub fn steps_on_a_content_are_its_graphs()
    ensures served { (c : Content) (g : ProtectionGraph) (x : ℕ) → StandsForSubject c g x → ServesAsContent c g x }
    ensures denied { (c : Content) (g : ProtectionGraph) (x : ℕ) → StandsForSubject c g x → StaysWhereDenied c g x }
    ensures created { (c : Content) (g : ProtectionGraph) (x : ℕ) → StandsForMaker c g x → CreatesAsContent c g x }
    ensures spawned { (c : Content) (g : ProtectionGraph) (x : ℕ) → StandsForMaker c g x → SpawnsAsContent c g x }
    ensures full { (c : Content) (g : ProtectionGraph) (x : ℕ) → IsContentOf c g → StaysWhereFull c g x }
    ensures new_name { (c : Content) (g : ProtectionGraph) → IsContentOf c g → ¬ IsNamed c g.made }
{}

/// A command that only looks is a read, an inspect or a list. It changes no label, no value and no subject.
pub fn looks_are_reads_inspects_and_lists()
    ensures which { (command : Command) → OnlyLooks command ↔ IsLook command }
    ensures nothing { (command : Command) → OnlyLooks command → ChangesNothing command }
{}
