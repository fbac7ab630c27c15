//! Turns that are to lead to a right, tried on the graph of a picture. Nothing has to be believed of them, because they
//! are replayed.
use crate::question::Question;
use crate::search::growth::{note, push};
use crate::search::{Findings, Hop};
use crate::separation::conditions::all_differ;
use crate::separation::{comes_later, has, single};
use crate::witness::chains::Chains;
use crate::witness::claims::EdgeClaim;
use crate::witness::few::{Handing, MOST_NEAR, Near, grant_of, take_of};
use crate::witness::shorter::{Pair, Tried, TurnsStart};
use crate::witness::trial::Trial;
use std::alloc::{AllocError, Global};
use tg_model::{Command, Deed, Edge, Law, MAX_WORKERS, Numbers, Picture};
use tg_rights::{Label, Right, Rights};

// Turns are tried one by one without each of them if they are at most so many.
const MOST_TRIED: usize = 256;

// The label of take, grant and a right, which may be one of these.
fn both_and(right: Right) -> Label {
    let both = Rights::of(Right::T).union(Rights::of(Right::G));
    Label::new(both.union(Rights::of(right))).unwrap()
}

/// The right that is asked for, over whom, and who holds it at first. The labels of turns: take, grant, both of these,
/// and both with the right.
#[derive(Clone, Copy, Drop)]
struct Goal {
    right: Right,
    asked: Label,
    over: u64,
    source: u64,
    take: Label,
    grant: Label,
    both: Label,
    all: Label,
}

impl Goal {
    // The goal of a question. Whose right it is first isn't known yet.
    fn of(question: Question) -> Goal {
        let Question { right, y, .. } = question;
        Goal {
            right,
            asked: single(right),
            over: y,
            source: y,
            take: single(Right::T),
            grant: single(Right::G),
            both: both_and(Right::T),
            all: both_and(right),
        }
    }
}

/// Turns, how many vertices are made after them, and the edges from each vertex as they were before.
#[derive(Drop)]
pub(crate) struct Planned {
    pub(crate) turns: Vec<(u64, Deed)>,
    pub(crate) made: u64,
    pub(crate) rows: Chains,
}

// A name that isn't made yet, and who makes it when it is the next one.
#[derive(Clone, Copy, Drop)]
struct Late {
    name: u64,
    maker: u64,
}

// How far a way was gone: the place of the last who acts on it, who acted before, and the mailbox that is handed on.
#[derive(Drop)]
struct Progress {
    place: usize,
    before: Option<u64>,
    last: Option<u64>,
    mailbox: u64,
}

// The turns so far, and the graph after them. If memory ran out once, no turn is taken any more, and the end reports
// it.
#[derive(Drop)]
struct Planner<'a> {
    picture: &'a Picture,
    found: &'a Findings,
    goal: Goal,
    late: Option<Late>,
    trial: Trial,
    turns: Vec<(u64, Deed)>,
    taken: Result<(), AllocError>,
}

impl<'a> Planner<'a> {
    // A plan without turns.
    fn new(
        alloc: Global,
        picture: &'a Picture,
        found: &'a Findings,
        rows: Chains,
        question: Question,
    ) -> Planner<'a> {
        let mut trial = Trial::new(alloc, picture, rows);
        trial.limit = u64::MAX;
        let taken = trial.rows.grown;
        Planner {
            picture,
            found,
            goal: Goal::of(question),
            late: None,
            trial,
            turns: Vec::new(alloc),
            taken,
        }
    }

    // The turns that lead the right to x. They use as few names as possible, or make the names that are asked about
    // first.
    fn lead_to(self, alloc: Global, x: u64, is_sparing: bool) -> Planned {
        let mut plan = self;
        let path = plan.path(alloc, x);
        plan.lead_by_few(alloc, path.as_slice(), x);
        let is_least = !plan.turns.is_empty();
        if !is_least {
            plan.lead_along(path.as_slice(), x, is_sparing);
        }
        plan.trial.forget_added();
        if !is_least {
            plan.shorten(alloc, x);
        }
        plan.planned()
    }

    // Leads the right to x along a path, with as few names as possible or not.
    fn lead_along(&mut self, path: &[Hop], x: u64, is_sparing: bool) {
        if is_sparing {
            self.lead_sparingly(path, x);
        } else {
            self.lead(path, x);
        }
    }

    // What was planned.
    fn planned(self) -> Planned {
        let mut plan = self;
        let taken = plan.taken;
        note(&mut plan.trial.rows.grown, taken);
        Planned {
            turns: plan.turns,
            made: plan.trial.made,
            rows: plan.trial.rows,
        }
    }

    // Leads the right to x by up to three takes and grants, if there are any that do so. One turn is looked for among
    // all edges, and more of them among a few vertices.
    fn lead_by_few(&mut self, alloc: Global, path: &[Hop], x: u64) {
        if path.is_empty() {
            return;
        }
        for edge in self.picture.edges() {
            if let Some((worker, command)) = self.one_by(edge, x) {
                return self.turn(worker, Deed::Plain(command));
            }
        }
        let names = self.near(alloc, path, x);
        let mut near = Near::of(
            alloc,
            self.picture,
            self.found,
            &self.trial.rows,
            names,
            &mut self.taken,
        );
        self.lead_near(&mut near, x);
    }

    // The turn that leads the right to x by an edge: x takes by it, or its holder grants by it.
    fn one_by(&self, edge: &Edge, x: u64) -> Option<Handing> {
        let Goal {
            right,
            over,
            asked,
            ..
        } = self.goal;
        let is_take = edge.from == x && has(edge.label, Right::T);
        let is_grant = edge.to == x && has(edge.label, Right::G);
        if !is_take && !is_grant || !self.found.acts(edge.from) {
            return None;
        }
        let other = if is_take { edge.to } else { edge.from };
        if !all_differ(x, other, over) || !self.has_all(other, over, asked) {
            return None;
        }
        Some(if is_take {
            take_of(x, other, right, over)
        } else {
            grant_of(other, x, right, over)
        })
    }

    // The vertices among which turns are looked for. If the picture shows few, these are all of them, and else those of
    // the path and those that are asked about.
    fn near(&mut self, alloc: Global, path: &[Hop], x: u64) -> Vec<u64> {
        let mut names = Vec::new(alloc);
        let shown = &self.found.sides.names;
        if shown.len() <= MOST_NEAR {
            for number in 0..shown.len() as u64 {
                push(&mut names, shown.name(number), &mut self.taken);
            }
            return names;
        }
        self.put_near(&mut names, x);
        self.put_near(&mut names, self.goal.over);
        for hop in path {
            self.put_near(&mut names, hop.vertex);
        }
        names
    }

    // Adds a name, unless it is there or too many are.
    fn put_near(&mut self, names: &mut Vec<u64>, name: u64) {
        if names.len() < MOST_NEAR && !names.contains(&name) {
            push(names, name, &mut self.taken);
        }
    }

    // Takes two or three turns among a few vertices that lead the right to x, if there are any.
    fn lead_near(&mut self, near: &mut Near, x: u64) {
        let Some(fact) = near.fact(x, self.goal.right, self.goal.over) else {
            return;
        };
        if let Some(turns) = near.two(fact) {
            return self.hand(&turns);
        }
        if let Some(turns) = near.three(fact) {
            self.hand(&turns);
        }
    }

    // Takes these turns.
    fn hand(&mut self, turns: &[Handing]) {
        for (worker, command) in turns.iter() {
            self.turn(*worker, Deed::Plain(*command));
        }
    }

    // Leaves out the turns that aren't needed, unless they are too many to be tried.
    fn shorten(&mut self, alloc: Global, x: u64) {
        if self.turns.len() > MOST_TRIED || self.taken.is_err() {
            return;
        }
        let mut tried = Tried::of(alloc, self.start(x), self.turns.as_slice());
        note(&mut self.taken, tried.grown);
        for pair in tried.pairs.iter_mut() {
            pair.first = self.first_rights(pair);
        }
        if self.taken.is_ok() && tried.leave_out() {
            let (turns, made) = tried.rest(alloc, self.turns.as_slice(), &mut self.taken);
            self.turns = turns;
            self.trial.made = made;
        }
    }

    // Where the turns begin, and what they are to lead to.
    fn start(&self, x: u64) -> TurnsStart {
        let Goal { asked, over, .. } = self.goal;
        let goal = EdgeClaim {
            from: x,
            to: over,
            rights: asked.rights(),
        };
        TurnsStart {
            goal,
            made: self.picture.made(),
            free: x.max(over).saturating_add(1),
            subjects: self.picture.subjects().len() as u64,
        }
    }

    // Those of the rights that turns need of a pair that it has on the picture.
    fn first_rights(&self, pair: &Pair) -> Rights {
        if pair.from == pair.to && self.found.acts(pair.from) {
            return pair.needed;
        }
        let mut held = Rights::empty();
        for right in Right::all() {
            let right = Rights::of(right);
            if pair.needed.contains(right) && self.has_first(pair, right) {
                held = held.union(right);
            }
        }
        held
    }

    // Whether a pair has a right on the picture. Who comes later is on no edge there.
    fn has_first(&self, pair: &Pair, right: Rights) -> bool {
        let made = self.picture.made();
        let edges = self.picture.edges();
        pair.from < made && pair.to < made && self.trial.has_all(edges, pair.from, pair.to, right)
    }

    // Takes a turn, whatever its outcome is.
    fn turn(&mut self, worker: u64, deed: Deed) {
        let turn = (worker, deed);
        if self.taken.is_ok() {
            let taken = self.trial.take_turn(self.picture.edges(), &[], 0, &turn);
            if let Err(error) = taken {
                self.taken = Err(error);
            }
        }
        push(&mut self.turns, turn, &mut self.taken);
    }

    // Whether a vertex has all of these rights over another.
    fn has_all(&self, x: u64, y: u64, rights: Label) -> bool {
        self.trial
            .has_all(self.picture.edges(), x, y, rights.rights())
    }

    // Takes rights, where they aren't held yet.
    fn take(&mut self, x: u64, via: u64, target: u64, rights: Label) {
        if !self.has_all(x, target, rights) {
            let command = Command::Take {
                rights,
                via,
                target,
            };
            self.turn(x, Deed::Plain(command));
        }
    }

    // Grants rights, where they aren't held yet.
    fn grant(&mut self, x: u64, via: u64, target: u64, rights: Label) {
        if !self.has_all(via, target, rights) {
            let command = Command::Grant {
                rights,
                via,
                target,
            };
            self.turn(x, Deed::Plain(command));
        }
    }

    // Makes an object over which x has these rights. If the next name is the one that is left to its maker, that one
    // is made first.
    fn create(&mut self, x: u64, label: Label) -> u64 {
        self.make_late();
        self.make(x, label)
    }

    // The name that is left to its maker is made, if it is the next one.
    fn make_late(&mut self) {
        if let Some(late) = self.late
            && late.name == self.trial.made
        {
            self.make(late.maker, self.goal.all);
        }
    }

    // All names up to the one that is left to its maker are made by that one.
    fn make_up_to_late(&mut self) {
        if let Some(late) = self.late {
            for _ in self.trial.made..late.name.saturating_add(1) {
                self.make(late.maker, self.goal.all);
            }
        }
    }

    // Makes an object with the next name.
    fn make(&mut self, x: u64, label: Label) -> u64 {
        let name = self.trial.made;
        let deed = Deed::Create {
            label,
            law: Law::Cell,
            state: Numbers::one(0),
        };
        self.turn(x, deed);
        name
    }

    // Makes a subject over which x has take and grant. Where as many as may be are active, another who acts retires
    // first.
    fn spawn(&mut self, x: u64) -> u64 {
        if self.trial.subjects.len() as u64 >= MAX_WORKERS {
            self.make_room(x);
        }
        self.make_late();
        let name = self.trial.made;
        let deed = Deed::Spawn {
            label: self.goal.both,
            law: Law::Cell,
            state: Numbers::one(0),
        };
        self.turn(x, deed);
        name
    }

    // Another than x who acts retires.
    fn make_room(&mut self, x: u64) {
        let picture = self.picture;
        for subject in picture.subjects() {
            if *subject != x && self.found.acts(*subject) {
                return self.turn(*subject, Deed::Plain(Command::Retire));
            }
        }
    }

    // Makes the names that are asked about and aren't made yet: the maker of x makes it, another one all others.
    fn make_names(&mut self, x: u64, maker: u64, other: u64) {
        let x_comes = comes_later(self.picture, x);
        let mut last = if x_comes { x } else { 0 };
        if comes_later(self.picture, self.goal.over) {
            last = last.max(self.goal.over);
        } else if !x_comes {
            return;
        }
        for name in self.picture.made()..last.saturating_add(1) {
            let worker = if name == x { maker } else { other };
            self.make(worker, self.goal.all);
        }
    }

    // Takes the take right over the next vertex of a walk, which is over one before it.
    fn walk_on(&mut self, first: u64, via: u64, target: u64) {
        if via != first {
            let command = Command::Take {
                rights: self.goal.take,
                via,
                target,
            };
            self.turn(first, Deed::Plain(command));
        }
    }

    // The subject at an end of a walk takes the take right over each of its vertices in turn. It goes from the first
    // vertex on, or back from the last.
    fn walk(&mut self, first: u64, walk: &[Hop], back: bool) {
        let mut via = first;
        for at in 0..walk.len() {
            let place = if back { walk.len() - 1 - at } else { at };
            let next = walk[place].vertex;
            self.walk_on(first, via, next);
            via = next;
        }
    }

    // The first subject that acts, at the end of a stretch, takes the right, or take over its holder. Then it puts it
    // into a new mailbox.
    fn begin(&mut self, stretch: &[Hop], first: u64) -> u64 {
        let goal = self.goal;
        self.walk(first, stretch, true);
        let mailbox = self.create(first, goal.both);
        if first == goal.over {
            self.grant(first, mailbox, goal.source, goal.take);
        } else {
            self.take(first, goal.source, goal.over, goal.asked);
            self.grant(first, mailbox, goal.over, goal.asked);
        }
        mailbox
    }

    // Hands take and grant over the mailbox on from the first of a stretch to the last.
    fn hand_on(&mut self, stretch: &[Hop], first: u64, last: u64, mailbox: u64) {
        let between = self.mailbox(stretch, first, last);
        self.grant(first, between, mailbox, self.goal.both);
        self.take(last, between, mailbox, self.goal.both);
        if last != self.goal.over {
            self.fetch(last, mailbox);
        }
    }

    // Where the mailbox has no more than take over who holds the right, the right is fetched.
    fn fetch(&mut self, x: u64, mailbox: u64) {
        let goal = self.goal;
        if !self.has_all(mailbox, goal.over, goal.asked) {
            self.take(x, mailbox, goal.source, goal.take);
            self.take(x, goal.source, goal.over, goal.asked);
            self.grant(x, mailbox, goal.over, goal.asked);
        }
    }

    // A new vertex over which both ends of a stretch have take and grant.
    fn mailbox(&mut self, stretch: &[Hop], p: u64, q: u64) -> u64 {
        let turn = turn_of(stretch);
        if turn < stretch.len() {
            return self.mailbox_between(
                part(stretch, 0, turn),
                part(stretch, turn, stretch.len()),
                p,
                q,
            );
        }
        self.walk(p, stretch, false);
        self.make_for(q, p)
    }

    // A new vertex over which p and q have take and grant. p walks down the steps forward, and q up the steps back.
    fn mailbox_between(&mut self, down: &[Hop], up: &[Hop], p: u64, q: u64) -> u64 {
        let a = vertex_of(down.last(), p);
        let b = vertex_of(up.first(), q);
        self.walk(p, down, false);
        self.walk(q, up, true);
        if a == p && self.has_all(b, p, self.goal.take) {
            self.walk_on(q, b, p);
            return self.make_for(p, q);
        }
        if self.has_all(a, b, self.goal.grant) {
            self.meet(p, a, b, q)
        } else {
            self.meet(q, b, a, p)
        }
    }

    // A new vertex that p makes, and q, who has take over p, takes.
    fn make_for(&mut self, p: u64, q: u64) -> u64 {
        let both = self.goal.both;
        let new = self.create(p, both);
        self.take(q, p, new, both);
        new
    }

    // p puts a new vertex where q can take it: a, to which p walks, has grant over b, to which q walks.
    fn meet(&mut self, p: u64, a: u64, b: u64, q: u64) -> u64 {
        if a != p {
            self.take(p, a, b, self.goal.grant);
        }
        let both = self.goal.both;
        let new = self.create(p, both);
        self.grant(p, b, new, both);
        if b != q {
            self.take(q, b, new, both);
        }
        new
    }

    // The last who acts walks to one that has grant over x, and the right is granted to x.
    fn end(&mut self, walk: &[Hop], last: u64, way: &Progress, x: u64) {
        let goal = self.goal;
        self.walk(last, walk, false);
        let giver = vertex_of(walk.last(), last);
        if giver != last {
            self.take(last, giver, x, goal.grant);
        }
        if last == goal.over {
            self.end_behind(last, way, x);
        } else {
            self.make_up_to_late();
            self.take(last, way.mailbox, goal.over, goal.asked);
            self.grant(last, x, goal.over, goal.asked);
        }
    }

    // The right is over the last who acts, who can't hold it: the one before it grants it to x, or one that it spawns.
    fn end_behind(&mut self, last: u64, way: &Progress, x: u64) {
        let goal = self.goal;
        let mailbox = way.mailbox;
        let holder = match way.before {
            Some(before) => before,
            None => self.spawn_holder(last, mailbox),
        };
        self.make_up_to_late();
        self.grant(last, mailbox, x, goal.grant);
        self.take(holder, mailbox, x, goal.grant);
        self.take(holder, mailbox, goal.over, goal.asked);
        self.grant(holder, x, goal.over, goal.asked);
    }

    // Spawns one who puts the right into the mailbox.
    fn spawn_holder(&mut self, last: u64, mailbox: u64) -> u64 {
        let spawned = self.spawn(last);
        self.grant(last, spawned, mailbox, self.goal.both);
        self.fetch(spawned, mailbox);
        spawned
    }

    // The path that the search found to x, unless x holds the right. The vertex with which it begins is the source.
    fn path(&mut self, alloc: Global, x: u64) -> Vec<Hop> {
        let mut path = Vec::new(alloc);
        if let Some(end) = end_of(self.picture, self.found, x)
            && !self.has_all(x, self.goal.over, self.goal.asked)
        {
            path = self.found.path(alloc, end, &mut self.taken);
        }
        self.goal.source = vertex_of(path.first(), x);
        path
    }

    // Leads the right to x along a path. The names that are asked about are made first.
    fn lead(&mut self, path: &[Hop], x: u64) {
        if path.is_empty() {
            return;
        }
        let maker = vertex_of(path.last(), x);
        let source = self.goal.source;
        let other = if self.found.acts(source) {
            source
        } else {
            maker
        };
        self.make_names(x, maker, other);
        let way = self.go_along(path);
        self.arrive(&way, path, x);
    }

    // Leads the right to x along a path with as few names as will do. Whoever makes y has the right over it, so the
    // last who acts makes it. Else x is made only when it is the next name, or at the end.
    fn lead_sparingly(&mut self, path: &[Hop], x: u64) {
        if path.is_empty() {
            return;
        }
        let maker = vertex_of(path.last(), x);
        let way = if comes_later(self.picture, self.goal.over) {
            let way = self.last_way(path);
            let last = way.last.unwrap_or(maker);
            self.make_names(x, last, last);
            way
        } else {
            if comes_later(self.picture, x) {
                self.late = Some(Late { name: x, maker });
            }
            self.go_along(path)
        };
        self.arrive(&way, path, x);
    }

    // Goes along a path, from one who acts to the next.
    fn go_along(&mut self, path: &[Hop]) -> Progress {
        let mut way = Progress::none();
        for (at, step) in path.iter().enumerate() {
            self.go(&mut way, path, at, step.vertex);
        }
        way
    }

    // The way from the last who acts on a path.
    fn last_way(&self, path: &[Hop]) -> Progress {
        let mut way = Progress::none();
        for (at, step) in path.iter().enumerate() {
            if self.found.acts(step.vertex) {
                way.last = Some(step.vertex);
                way.place = at;
            }
        }
        way
    }

    // Goes one step, from one who acts to the next, with one mailbox that is handed on.
    fn go(&mut self, way: &mut Progress, path: &[Hop], at: usize, vertex: u64) {
        if !self.found.acts(vertex) {
            return;
        }
        let stretch = part(path, way.place, at.saturating_add(1));
        match way.last {
            Some(last) if last == vertex => {}
            Some(last) => self.hand_on(stretch, last, vertex, way.mailbox),
            None => way.mailbox = self.begin(stretch, vertex),
        }
        if way.last != Some(vertex) {
            way.before = way.last;
        }
        way.last = Some(vertex);
        way.place = at;
    }

    // The last who acts hands the right to x, or is x.
    fn arrive(&mut self, way: &Progress, path: &[Hop], x: u64) {
        match way.last {
            Some(last) if last != x => self.end(part(path, way.place, path.len()), last, way, x),
            _ => self.take(x, way.mailbox, self.goal.over, self.goal.asked),
        }
    }
}

impl Progress {
    // Nobody acted on it yet.
    fn none() -> Progress {
        Progress {
            place: 0,
            before: None,
            last: None,
            mailbox: 0,
        }
    }
}

// How many steps a stretch goes forward, the first counted with them.
fn turn_of(stretch: &[Hop]) -> usize {
    for (at, step) in stretch.iter().enumerate() {
        if at > 0 && !step.forward {
            return at;
        }
    }
    stretch.len()
}

// The vertex of a step, another one where there is none.
fn vertex_of(step: Option<&Hop>, other: u64) -> u64 {
    match step {
        Some(step) => step.vertex,
        None => other,
    }
}

// Some of the steps, none past the last.
fn part(steps: &[Hop], from: usize, to: usize) -> &[Hop] {
    steps.get(from..to).unwrap_or(&[])
}

// Where the search ends for x: at x itself, at one who may make it, or at one that has grant over it.
fn end_of(picture: &Picture, found: &Findings, x: u64) -> Option<Hop> {
    if found.acts(x) && found.sides.is_back(x) {
        return Some(Hop {
            vertex: x,
            forward: false,
        });
    }
    if comes_later(picture, x) {
        return found.first_actor(picture, false);
    }
    giver_to(picture, found, x)
}

// The first who has grant over x, and may be handed the right.
fn giver_to(picture: &Picture, found: &Findings, x: u64) -> Option<Hop> {
    for edge in picture.edges() {
        if edge.to == x && has(edge.label, Right::G) && found.sides.is_forward(edge.from) {
            return Some(Hop {
                vertex: edge.from,
                forward: true,
            });
        }
    }
    None
}

/// Turns after which x is to hold the right over y, by what the search has found. `rows` are the edges from x and from
/// those that it found, and note whether memory ran out. The turns make the names that are asked about first. If fewer
/// names are left than that needs, the turns are those that do with 64 other names.
pub(crate) fn turns_to<'a>(
    alloc: Global,
    picture: &'a Picture,
    found: &'a Findings,
    rows: Chains,
    question: Question,
) -> Planned {
    let plan = Planner::new(alloc, picture, found, rows, question);
    let planned = plan.lead_to(alloc, question.x, false);
    if planned.made <= picture.limit() {
        return planned;
    }
    let sparing = Planner::new(alloc, picture, found, planned.rows, question);
    sparing.lead_to(alloc, question.x, true)
}
