//! Laws of contents alone. A function here does nothing. Its `ensures` is the law.
//!
//! The proofs of the crates above cite the lemmas from which they follow, which are in `proofs/StandingLaws.antt`.
ghost use Rattle.std.specs.Prelude.{◌≡◌, ◌↔◌, ℕ};
ghost use Rattle.tg_model.specs.Graph.{ProtectionGraph, IsReachable};
ghost use Rattle.tg_space.specs.declared.kind.Kind.{Kind};
ghost use Rattle.tg_rows.specs.Content.{Content, IsNamed, IsSameContent, OnlyNamedHold};
ghost use Rattle.tg_graph.specs.Heap.{HeapState, IsUnchangedHeap, content_of};
ghost use Rattle.tg_graph.specs.Standing.{IsContentOf, IsReached, KeepsContent, KeepsReached};

/// If a collection keeps all that can be reached, the content that it leaves represents the same graph as before. A
/// full collection keeps exactly what can be reached from the graph's subjects. So its content represents the graph,
/// and its names are exactly those that can be reached.
pub fn what_is_kept_stands_for_the_same_graph()
    ensures kept { (old new : Content) (g : ProtectionGraph) →
        IsContentOf old g → KeepsContent old new (IsNamed new) → ((x : ℕ) → IsReachable g x → IsNamed new x) →
        IsContentOf new g }
    ensures reached { (old : Content) (g : ProtectionGraph) (x : ℕ) →
        IsContentOf old g → IsReached old g.subjects x ↔ IsReachable g x }
    ensures full { (old new : Content) (g : ProtectionGraph) →
        IsContentOf old g → KeepsContent old new (IsReached old g.subjects) →
        IsContentOf new g }
    ensures names { (old new : Content) (g : ProtectionGraph) (x : ℕ) →
        IsContentOf old g → KeepsContent old new (IsReached old g.subjects) →
        IsNamed new x ↔ IsReachable g x }
{}

/// After a collection of either kind the content represents the same graph as before.
pub fn a_collected_heap_stands_for_the_same_graph()
    ensures { (kind : Kind) (old new : Content) (g : ProtectionGraph) →
        IsContentOf old g → KeepsReached kind old new g.subjects →
        IsContentOf new g }
{}

/// What a heap doesn't have holds no rights.
pub fn what_a_heap_lacks_holds_no_rights()
    ensures { (s : HeapState) → OnlyNamedHold (content_of s) }
{}

/// A heap that only got room for payloads and notes has the same content, and represents the same graph.
pub fn an_unchanged_heap_has_the_same_content()
    ensures same { (old new : HeapState) → IsUnchangedHeap old new → IsSameContent (content_of old) (content_of new) }
    ensures stands { (old new : HeapState) (g : ProtectionGraph) →
        IsContentOf (content_of old) g → IsUnchangedHeap old new → IsContentOf (content_of new) g }
{}
