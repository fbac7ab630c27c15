//! The table.
ghost use Rattle.std.specs.Prelude.{◌≡◌, ◌≢◌, ◌↔◌, ◌<◌, ◌++◌, ◌∷◌, [], IfOk, IfSome, IsSome, IsTrue, None, length, slice_set};
ghost use Rattle.std.specs.List.{All, Contains};
ghost use Rattle.tg_word.specs.declared.TheConstants.{MAX_NURSERIES};
ghost use Rattle.tg_subjects.specs.Subjects.{AreSubjects, IsAt, IsHeld, IsLeastFree, IsSubjectNamed, names_of, nurseries_of, nursery_held, subject_places, without};

use crate::subject::Subject;
use std::alloc::{AllocError, Global};
use std::marker::Model;
use tg_word::{MAX_NURSERIES, Place};

/// The active subjects. Contracts see the list.
#[derive(Drop)]
pub struct Subjects {
    items: Vec<Subject>,
    // A bit for each nursery that a subject holds. There are as many bits as there may be nurseries.
    held: u64,
}

impl Model for Subjects {
    ghost use Rattle.std.specs.Prelude.{◌≤◌, List};
    ghost use Rattle.std.specs.Vec.{vec_capacity};
    ghost use Rattle.tg_word.specs.declared.TheConstants.{MAX_NURSERIES};
    ghost use Rattle.tg_subjects.specs.Subjects.{AreSubjects, MarksHeld, nurseries_of};
    ghost use Rattle.tg_subjects.specs.declared.subject.Subject.{Subject};

    ghost Value = { List Subject };

    ghost view = { λ table. table.items.items };

    // names rise, each subject has a nursery of its own, there is room for all that there may be, and just the bits of
    // held nurseries are set
    ghost invariant = { λ table. AreSubjects table.items.items × (MAX_NURSERIES ≤ vec_capacity table.items) × MarksHeld table.held (nurseries_of table.items.items) };
}

impl Subjects {
    /// No subject, and room for all that there may be.
    ///
    /// The one refusal is that of memory.
    pub fn new(alloc: Global) -> Result<Subjects, AllocError>
        ensures { IfOk result (λ subjects. subjects ≡ []) }
    {
        Ok(Subjects {
            items: Vec::with_capacity(alloc, MAX_NURSERIES as usize)?,
            held: 0,
        })
    }

    /// How many are active, at most `MAX_NURSERIES`. This call shows what holds of every table.
    pub fn len(&self) -> usize
        ensures number { result ≡ length self.now }
        ensures subjects { AreSubjects self.now }
    {
        self.items.len()
    }

    /// The subjects, by rising name.
    #[inline(always)]
    pub fn as_slice(&self) -> &[Subject]
        ensures value { result.now ≡ self.now }
        ensures subjects { AreSubjects self.now }
    {
        self.items.as_slice()
    }

    /// The subject with a name, if it is active.
    #[inline(always)]
    pub fn find(&self, name: u64) -> Option<Subject>
        ensures found { IsSome result ↔ Contains (names_of self.now) name }
        ensures there { IfSome result (IsSubjectNamed self.now name) }
        ensures nursery { IfSome result (λ s. s.nursery ≡ nursery_held self.now name) }
    {
        find_in(self.as_slice(), name)
    }

    /// The least number of a nursery that no active subject holds.
    ///
    /// There has to be one, so fewer than `MAX_NURSERIES` subjects may be active.
    pub fn free_nursery(&self) -> u64
        requires { length self.now < MAX_NURSERIES }
        ensures { IsLeastFree self.now result }
    {
        u64::from(self.held.trailing_ones())
    }

    /// Adds a subject, and returns the number of its nursery, which is the least that is free. It takes no memory.
    ///
    /// Its name has to be above all others, and fewer than `MAX_NURSERIES` subjects may be active.
    pub fn add(&mut self, name: u64, place: Place) -> u64
        requires few { length self.old < MAX_NURSERIES }
        requires above { All (λ s. s.name < name) self.old }
        ensures nursery { IsLeastFree self.old result }
        ensures added { self.new ≡ self.old ++ (record { name = name; nursery = result; place = place }) ∷ [] }
        ensures subjects { AreSubjects self.new }
    {
        let nursery = self.free_nursery();
        self.items.push_reserved(Subject {
            name,
            nursery,
            place,
        });
        self.held |= 1 << nursery;
        nursery
    }

    /// Takes the subject with a name out, if it is active. Its nursery is free then. It takes no memory.
    pub fn retire(&mut self, name: u64)
        ensures without { self.new ≡ without self.old name }
        ensures subjects { AreSubjects self.new }
    {
        if let Some(at) = position(self.as_slice(), name) {
            let retired = self.items.remove(at);
            self.held &= !(1 << retired.nursery);
        }
    }

    /// Puts the object of the subject that is at a place of the table somewhere else. It takes no memory.
    ///
    /// There has to be such a subject. All else stays.
    pub fn set_place(&mut self, at: usize, place: Place)
        requires inside { at < length self.old }
        ensures names { names_of self.new ≡ names_of self.old }
        ensures nurseries { nurseries_of self.new ≡ nurseries_of self.old }
        ensures places { subject_places self.new ≡ slice_set (subject_places self.old) at place }
        ensures subjects { AreSubjects self.new }
    {
        self.items[at].place = place;
    }
}

// The subject with a name, if it is there. Where none was retired, it is at the place with the name's number.
#[inline(always)]
fn find_in(subjects: &[Subject], name: u64) -> Option<Subject>
    requires { AreSubjects subjects.now }
    ensures there { IfSome result (IsSubjectNamed subjects.now name) }
    ensures none { result ≡ None → All (λ s. s.name ≢ name) subjects.now }
{
    if let Some(guess) = subjects.get(name as usize) {
        if guess.name == name {
            return Some(*guess);
        }
    }
    Some(subjects[position(subjects, name)?])
}

// Where the subject with a name is, if it is there. The one who came last is looked at first.
#[inline(always)]
fn position(subjects: &[Subject], name: u64) -> Option<usize>
    requires { AreSubjects subjects.now }
    ensures there { IfSome result (IsAt subjects.now name) }
    ensures none { result ≡ None → All (λ s. s.name ≢ name) subjects.now }
{
    let last = subjects.len().wrapping_sub(1);
    match subjects.get(last) {
        Some(subject) if subject.name == name => Some(last),
        _ => searched(subjects, name),
    }
}

// Where the subject with a name is, found by halves, because names rise.
fn searched(subjects: &[Subject], name: u64) -> Option<usize>
    requires { AreSubjects subjects.now }
    ensures there { IfSome result (IsAt subjects.now name) }
    ensures none { result ≡ None → All (λ s. s.name ≢ name) subjects.now }
{
    subjects
        .binary_search_by_key(&name, |subject| subject.name)
        .ok()
}
