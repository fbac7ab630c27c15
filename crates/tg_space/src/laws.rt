//! Laws of the definitions. There is no code. Each law is the contract of a function.
ghost use Rattle.std.specs.Prelude.{◌≡◌, ◌≢◌, ◌<◌, ◌↔◌, ◌⊎◌, ℕ, [], List, length, slice_index_or, slice_set};
ghost use Rattle.std.specs.List.{All, Contains};
ghost use Rattle.tg_block.specs.Cells.{free_cell};
ghost use Rattle.tg_block.specs.declared.TheConstants.{CHUNK_POINTERS, CHUNK_TAG, KEY, LINK, NAME, OBJECT_POINTERS, OBJECT_TAG, WORDS};
ghost use Rattle.tg_model.specs.declared.opening.TheConstants.{MAX_LASTING_VERTICES, MAX_VERTICES, MAX_WORKERS};
ghost use Rattle.tg_space.specs.declared.limits.TheConstants.{MOST_BLOCKS, MOST_LARGE_BLOCKS};
ghost use Rattle.tg_word.specs.declared.TheConstants.{AGED, BLOCK_AT, CELLS, CELL_AT, MAX_NURSERIES, MOST_SPACE_BLOCKS, OLD, PRESENT_AT, SPACES, SPACE_AT};
ghost use Rattle.tg_word.specs.declared.Place.{Place};
ghost use Rattle.tg_space.specs.SpaceList.{HasCell, IsSpaceList, SpaceList, cell_at, cells_of, flat_of, with_block, with_word_at};
ghost use Rattle.tg_space.specs.Closure.{IsComplete, IsInClosure, IsTraced};
ghost use Rattle.tg_space.specs.Soundness.{AreSound, IsPointer};
ghost use Rattle.tg_space.specs.Targets.{cell_numbered, pointers_of};
ghost use Rattle.tg_space.specs.declared.root.Root.{Root};

/// The law of tracing. Take a list of cells in which each cell is a root, or a target of an earlier cell of the list.
/// If the list has all roots and all targets of its cells, it is exactly the closure of the roots.
pub fn traced_and_complete_is_the_closure()
    ensures { (roots : List ℕ) (targets : ℕ → List ℕ) (won : List ℕ) → IsTraced roots targets won → IsComplete roots targets won → (c : ℕ) → Contains won c ↔ IsInClosure roots targets c }
{}

/// A place names one cell. Each held cell has a number of its own, below the number of all cells. The number names the
/// same words as the place.
pub fn places_name_cells()
    ensures inside { (h : SpaceList) → IsSpaceList h → (p : Place) → HasCell h p → flat_of h p < length (cells_of h) }
    ensures apart { (h : SpaceList) → IsSpaceList h → (p q : Place) → HasCell h p → HasCell h q → flat_of h p ≡ flat_of h q → p ≡ q }
    ensures words { (h : SpaceList) → IsSpaceList h → (p : Place) → HasCell h p → cell_numbered h (flat_of h p) ≡ cell_at h p }
{}

/// Setting a word changes one cell, and that in one word.
pub fn writes_change_one_word()
    ensures changed { (h : SpaceList) (p : Place) (i word : ℕ) → IsSpaceList h → HasCell h p → cell_at (with_word_at h p i word) p ≡ slice_set (cell_at h p) i word }
    ensures others { (h : SpaceList) (p q : Place) (i word : ℕ) → HasCell h p → q ≢ p → cell_at (with_word_at h p i word) q ≡ cell_at h q }
    ensures places { (h : SpaceList) (p q : Place) (i word : ℕ) → HasCell h p → HasCell (with_word_at h p i word) q ↔ HasCell h q }
{}

/// A new block adds free cells, and changes no other cell.
pub fn new_blocks_are_free()
    ensures kept { (h : SpaceList) (space : ℕ) (p : Place) → space < length h → HasCell h p → HasCell (with_block h space) p × (cell_at (with_block h space) p ≡ cell_at h p) }
    ensures added { (h : SpaceList) (space : ℕ) (p : Place) → space < length h → HasCell (with_block h space) p → (HasCell h p × (cell_at (with_block h space) p ≡ cell_at h p)) ⊎ (cell_at (with_block h space) p ≡ free_cell) }
{}

/// In sound spaces each reference and link is empty, or names a held cell that is not free.
pub fn sound_cells_name_used_cells()
    ensures { (h : SpaceList) (roots : List Root) → AreSound h roots → IsSpaceList h → (number : ℕ) → number < length (cells_of h) → All (IsPointer h) (pointers_of (cell_numbered h number)) }
{}

/// The numbers of the layout. They say where the parts of a word begin, where the words of a cell are, and how much
/// there may be.
pub fn numbers_are_these()
    ensures word { (CELL_AT ≡ 8) × (BLOCK_AT ≡ 14) × (SPACE_AT ≡ 34) × (PRESENT_AT ≡ 41) }
    ensures cell { (WORDS ≡ 8) × (OBJECT_TAG ≡ 1) × (CHUNK_TAG ≡ 2) × (NAME ≡ 1) × (KEY ≡ 2) × (OBJECT_POINTERS ≡ 4) × (CHUNK_POINTERS ≡ 1) × (LINK ≡ 7) }
    ensures spaces { (OLD ≡ 0) × (AGED ≡ 1) × (MAX_NURSERIES ≡ 64) × (SPACES ≡ 66) }
    ensures blocks { (CELLS ≡ 64) × (MOST_SPACE_BLOCKS ≡ 1048576) × (MOST_BLOCKS ≡ 65536) × (MOST_LARGE_BLOCKS ≡ 1048576) }
    ensures graph { (MAX_WORKERS ≡ 64) × (MAX_VERTICES ≡ 16777216) × (MAX_LASTING_VERTICES ≡ 281474976710656) }
{}
