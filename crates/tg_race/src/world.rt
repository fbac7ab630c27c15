//! The race as a state machine, with no atomic.
ghost use Rattle.std.specs.Prelude.{◌≡◌, nat_lt, IfOk, MatchResult, if◌then◌else◌, true, false, slice_get};
ghost use Rattle.std.specs.Option.{option_copied};
ghost use Rattle.tg_race.specs.Course.{net_of, HappensIfItCan, IsRaceable, can, can_win, is_within, can_happen, happens, starting, record_at};
ghost use Rattle.tg_race.specs.declared.event.Event.TheVariants.{Claim, Look, Lose, Win, Block, Part, Meet};

use crate::event::Event;
use crate::links::{place_in, word_to};
use crate::record::Record;
use crate::shape::Shape;
use std::alloc::{AllocError, Global};
use std::marker::Model;
use std::mem;
use tg_word::{CELLS, MOST_SPACE_BLOCKS, Place, SPACES};

/// The race as a state machine. It has its words, and a record for each helper that was made. A clause sees its course.
#[derive(Drop)]
pub struct World {
    alloc: Global,
    shape: Shape,
    next_chunk: u64,
    next_aged: u64,
    next_old: u64,
    words: Vec<u64>,
    records: Vec<Record>,
}

impl Model for World {
    ghost use Rattle.tg_race.specs.Course.{Course, KeepsRule, IsHeldNet, net_of};

    ghost Value = { Course };

    ghost view = { λ w. record { net = net_of w.shape; race = record { next_chunk = w.next_chunk; next_aged = w.next_aged; next_old = w.next_old; words = w.words.items; records = w.records.items } } };

    ghost invariant = { λ w. IsHeldNet (net_of w.shape) × KeepsRule (record { net = net_of w.shape; race = record { next_chunk = w.next_chunk; next_aged = w.next_aged; next_old = w.next_old; words = w.words.items; records = w.records.items } }) };
}

impl World {
    /// The start of a race. No cell has a place, and one empty record, number 0, is that of all helpers.
    pub fn start(alloc: Global, shape: Shape) -> Result<World, AllocError>
        requires { IsRaceable (net_of shape) }
        ensures { IfOk result (λ w. w ≡ starting (net_of shape)) }
    {
        let words = Vec::from_elem(alloc, 0u64, shape.targets.len())?;
        let mut records = Vec::with_capacity(alloc, 1)?;
        records.push_reserved(Record::new(alloc, u64::from(shape.helpers)));
        let next_old = shape.kept;
        Ok(World {
            alloc,
            shape,
            next_chunk: 0,
            next_aged: 0,
            next_old,
            words,
            records,
        })
    }

    /// One event of the helper whose record has this number.
    ///
    /// The answer is true if the event could happen. Then its helper was made and isn't spent, and its condition held.
    /// Otherwise it is false and nothing changes. If memory runs out, nothing changes either.
    pub fn event(&mut self, helper: usize, event: Event) -> Result<bool, AllocError>
        ensures { MatchResult result (HappensIfItCan self.old self.new helper event) (λ _. self.new ≡ self.old) }
    {
        if !self.can_happen(helper, event) {
            return Ok(false);
        }
        match event {
            Event::Claim => self.claim(helper)?,
            Event::Look { cell } => self.look(helper, cell)?,
            Event::Win { cell, place } => self.win(helper, cell, place)?,
            Event::Lose { cell } => self.lose(helper, cell)?,
            Event::Block { aged: true } => self.claim_aged(helper)?,
            Event::Block { aged: false } => self.claim_old(helper)?,
            Event::Part => self.part(helper)?,
            Event::Meet { other } => self.meet(helper, other)?,
        }
        Ok(true)
    }

    /// Whether this can be the next event.
    pub fn can_happen(&self, helper: usize, event: Event) -> bool
        ensures { result ≡ can_happen self.now helper event }
    {
        match self.records.get(helper) {
            Some(v) => v.share > 0 && self.can(helper, v, event),
            None => false,
        }
    }

    /// The record with this number. It is `None` if no helper has it.
    pub fn record_of(&self, number: usize) -> Option<&Record>
        ensures { option_copied result ≡ slice_get self.now.race.records number }
    {
        self.records.get(number)
    }

    /// The words of the cells: 0, or the reference with no rights to the cell's place.
    pub fn words(&self) -> &[u64]
        ensures { result.now ≡ self.now.race.words }
    {
        self.words.as_slice()
    }

    fn is_live(&self, helper: usize) -> bool
        ensures { result ≡ nat_lt 0 (record_at self.now.race helper).share }
    {
        match self.records.get(helper) {
            Some(record) => record.share > 0,
            None => false,
        }
    }

    // Whether the place is in range, and in a block that a space may have.
    fn is_within(&self, place: Place) -> bool
        ensures { result ≡ is_within self.now.net place }
    {
        place.space < SPACES
            && place.block < MOST_SPACE_BLOCKS
            && place.cell < CELLS
            && place.block < self.shape.space_blocks
    }

    fn can_win(&self, v: &Record, cell: u64, place: Place) -> bool
        ensures { result ≡ can_win self.now.net self.now.race v.now cell place }
    {
        cell < self.words.len() as u64
            && self.words[cell as usize] == 0
            && self.shape.is_target(v, cell)
            && self.is_within(place)
            && v.can_use(place)
    }

    // Whether a helper that isn't spent can do this.
    fn can(&self, helper: usize, v: &Record, event: Event) -> bool
        ensures { result ≡ can self.now.net self.now.race helper v.now event }
    {
        match event {
            Event::Claim => v.chunks_below((self.shape.roots.len() as u64 + 7) / 8),
            Event::Look { cell } => cell < self.shape.targets.len() as u64,
            Event::Win { cell, place } => self.can_win(v, cell, place),
            Event::Lose { cell } => {
                cell < self.words.len() as u64 && self.words[cell as usize] != 0
            }
            Event::Block { aged } => {
                v.can_claim_block(aged) && v.blocks_below(aged, self.shape.space_blocks)
            }
            Event::Part => v.can_part(),
            Event::Meet { other } => other != helper && self.is_live(other),
        }
    }

    fn claim(&mut self, helper: usize) -> Result<(), AllocError>
        requires { can_happen self.old helper Claim ≡ true }
        ensures { MatchResult result (λ _. self.new ≡ happens self.old helper Claim) (λ _. self.new ≡ self.old) }
    {
        self.records[helper].chunks.push_back(self.next_chunk)?;
        self.next_chunk += 1;
        Ok(())
    }

    fn look(&mut self, helper: usize, cell: u64) -> Result<(), AllocError>
        requires { can_happen self.old helper (Look cell) ≡ true }
        ensures { MatchResult result (λ _. self.new ≡ happens self.old helper (Look cell)) (λ _. self.new ≡ self.old) }
    {
        if self.words[cell as usize] == 0 {
            return Ok(());
        }
        self.lose(helper, cell)
    }

    fn win(&mut self, helper: usize, cell: u64, place: Place) -> Result<(), AllocError>
        requires { can_happen self.old helper (Win cell place) ≡ true }
        ensures { MatchResult result (λ _. self.new ≡ happens self.old helper (Win cell place)) (λ _. self.new ≡ self.old) }
    {
        self.records[helper].won.push_back((cell, place))?;
        self.words[cell as usize] = word_to(place);
        Ok(())
    }

    fn lose(&mut self, helper: usize, cell: u64) -> Result<(), AllocError>
        requires { can_happen self.old helper (Lose cell) ≡ true }
        ensures { MatchResult result (λ _. self.new ≡ happens self.old helper (Lose cell)) (λ _. self.new ≡ self.old) }
    {
        let place = place_in(self.words[cell as usize]);
        self.records[helper].seen.push_back((cell, place))?;
        Ok(())
    }

    fn claim_aged(&mut self, helper: usize) -> Result<(), AllocError>
        requires { can_happen self.old helper (Block true) ≡ true }
        ensures { MatchResult result (λ _. self.new ≡ happens self.old helper (Block true)) (λ _. self.new ≡ self.old) }
    {
        self.records[helper].aged_blocks.push_back(self.next_aged)?;
        self.next_aged += 1;
        Ok(())
    }

    fn claim_old(&mut self, helper: usize) -> Result<(), AllocError>
        requires { can_happen self.old helper (Block false) ≡ true }
        ensures { MatchResult result (λ _. self.new ≡ happens self.old helper (Block false)) (λ _. self.new ≡ self.old) }
    {
        self.records[helper].old_blocks.push_back(self.next_old)?;
        self.next_old += 1;
        Ok(())
    }

    fn part(&mut self, helper: usize) -> Result<(), AllocError>
        requires { can_happen self.old helper Part ≡ true }
        ensures { MatchResult result (λ _. self.new ≡ happens self.old helper Part) (λ _. self.new ≡ self.old) }
    {
        self.records.reserve(1)?;
        self.records[helper].share -= 1;
        self.records.push_reserved(Record::new(self.alloc, 1));
        Ok(())
    }

    fn meet(&mut self, helper: usize, other: usize) -> Result<(), AllocError>
        requires { can_happen self.old helper (Meet other) ≡ true }
        ensures { MatchResult result (λ _. self.new ≡ happens self.old helper (Meet other)) (λ _. self.new ≡ self.old) }
    {
        if !self.records[helper].fits_one(&self.records[other]) {
            return Err(AllocError);
        }
        let spent = Record::new(self.alloc, 0);
        let it = mem::replace(&mut self.records[other], spent);
        self.records[helper].take_in(it);
        Ok(())
    }
}
