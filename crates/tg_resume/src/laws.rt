//! What a store is that was resumed. A function here does nothing. Its `ensures` is the law.
ghost use Rattle.std.specs.Prelude.{◌≡◌, ◌-◌, ℕ, List, ◌++◌, drop, length};
ghost use Rattle.tg_journal.specs.declared.entry.Entry.{Entry};
ghost use Rattle.tg_space.specs.declared.room_fault.RoomFault.{RoomFault};
ghost use Rattle.tg_store.specs.Store.{IsFaithful, StoreState, graph_of_store};
ghost use Rattle.tg_resume.specs.Resuming.{HasFrontOf, HasNoRoom, IsBadAt, Resumes};

/// A store that is resumed from one part, and then from the next, is resumed from both.
pub fn parts_join()
    ensures { (front more : List Entry) (old mid new : StoreState) →
        Resumes front old mid → Resumes more mid new → Resumes (front ++ more) old new }
{}

/// A store that had no room for an entry goes on from the place that was returned, which is that of its next entry. If
/// it is resumed from the entries from there on, it is resumed from all.
pub fn it_goes_on_from_where_it_stopped()
    ensures { (es : List Entry) (old mid : StoreState) (at : ℕ) (why : RoomFault) → HasNoRoom es old mid at why →
        (at ≡ length mid.entries) × ((new : StoreState) → Resumes (drop (at - length old.entries) es) mid new → Resumes es old new) }
{}

/// Take a store that has the first entries of another store's journal, or none, and the opening of that store. If it is
/// resumed from the rest, it has the whole journal and the graph of the other store. So each later reply is the same.
pub fn it_is_as_the_first_store_was()
    ensures { (first old new : StoreState) →
        HasFrontOf first old → Resumes (drop (length old.entries) first.entries) old new →
        (new.entries ≡ first.entries) × (graph_of_store new ≡ graph_of_store first) }
{}

/// No entry that a store of the same opening made is bad, if none before it is left out.
pub fn no_entry_of_a_store_is_bad()
    ensures { (first old : StoreState) (es later : List Entry) (at : ℕ) →
        IsFaithful first → old.opening ≡ first.opening → first.entries ≡ (old.entries ++ es) ++ later →
        ¬ IsBadAt es old at }
{}
