// The types of document 01, shared by its definitions and by the code, and what a task does by itself.
#![tactic(auto)]

ghost use Rattle.std.specs.Prelude.{◌≡◌};
ghost use Rattle.terms.specs.Answers.{number_of, price_of, answer_of};
ghost use Rattle.std.specs.Prelude.{Some};
ghost use Rattle.terms.specs.Operations.{operation_at};
ghost use Rattle.terms.specs.Printed.{figures_text};
ghost use Rattle.terms.specs.Task.{idle_task, begun, noted, noted_put, noted_take, noted_settle, noted_phase, goal_of, restarted, abandoned};
ghost use Rattle.terms.specs.Task.{goal_settles, work_settles, is_busy};

use std::fmt;

// A slot of the table: six numbers as they stand. The state is no enum, since a damaged slot may hold any number.
#[derive(Clone, Copy, Default)]
pub struct Rec {
    pub state: u32,
    pub number: u32,
    pub price: u32,
    pub rank: u32,
    pub left: u32,
    pub right: u32,
}

// Both links of a record, as a reading notes them.
#[derive(Clone, Copy, PartialEq, Eq, Default)]
pub struct Links {
    pub left: u32,
    pub right: u32,
}

// The last three records of a walk. `grand` is 4,294,967,295 while there is no grandparent: the parent is the entry. The definition
// `no_grand` and the numbers of a state for C say so: no Option.
#[derive(Clone, Copy, Default)]
pub struct Path {
    pub grand: u32,
    pub parent: u32,
    pub here: u32,
}

// What begin hands in beside the operation.
#[derive(Clone, Copy)]
pub struct Job {
    pub number: u32,
    pub price: u32,
}

#[derive(Clone, Copy)]
pub enum Operation {
    LookUp,
    PutIn,
    TakeOut,
}

// What a task walks for. Settling is a goal like the others, as in `Walk.arrival` and in the theorems: no Option of an operation.
#[derive(Clone, Copy)]
pub enum Goal {
    Serve(Operation),
    Settle,
}

// A put-in after its walk, by what it does next, with the links noted so far: parent, leaf.
#[derive(Clone, Copy)]
pub enum PutStage {
    PutParent,
    PutLeaf(Links),
    PutCommit(Links, Links),
}

// A take-out after its walk: grandparent, parent, parent's left child, its right child.
#[derive(Clone, Copy)]
pub enum TakeStage {
    TakeGrand,
    TakeParent(Links),
    TakeLeft(Links, Links),
    TakeRight(Links, Links, Links),
    TakeCommit(Links, Links, Links, Links),
}

// A settling task that stands on a level record: pz, z, x, y. From the third stage on the step chooses.
#[derive(Clone, Copy)]
pub enum SettleStage {
    SettleGrand,
    SettleParent(Links),
    SettleChoose(Links, Links),
    SettleRotate(Links, Links, Links),
    SettleDouble(Links, Links, Links, Links),
}

#[derive(Clone, Copy)]
pub enum Phase {
    Start(Goal),
    Walk(Goal, Path),
    PuttingIn(Path, PutStage),
    TakingOut(Path, TakeStage),
    Settling(Path, SettleStage),
}

// Idle or busy are the words of document 01, by which the definitions `busy`, `step_work` and the theorems go: no Option of a pair.
#[derive(Clone, Copy)]
pub enum Work {
    Idle,
    Busy(Job, Phase),
}

#[derive(Clone, Copy)]
pub struct Task {
    pub work: Work,
}

#[derive(Clone, Copy)]
pub struct State {
    pub tasks: [Task; 8],
    pub m: u32,
    pub u: u32,
}

// The answers and refusals of document 01, in its order.
#[derive(Clone, Copy)]
pub enum Answer {
    Accepted,
    Found(u32),
    NotHeld,
    PutSettled,
    HeldAlready,
    TakenOut,
    PutUnsettled,
    TaskNumber,
    OutOfRange,
    TaskBusy,
    TaskIdle,
    SomeBusy,
    NoRoom,
    Limit,
    Damaged,
    Length,
    BadRecord,
}

// The refusals of document 01, all ten, as the error of what can be refused.
#[derive(Clone, Copy)]
pub enum Refusal {
    TaskNumber,
    OutOfRange,
    TaskBusy,
    TaskIdle,
    SomeBusy,
    NoRoom,
    Limit,
    Damaged,
    Length,
    BadRecord,
}

// A number that names no operation.
#[derive(Clone, Copy)]
pub struct NoOperation {
    pub number: u32,
}

// What a step comes to for its task: 17 and no change, another phase, or the end. The definitions go by these three: no Result.
#[derive(Clone, Copy)]
pub enum Turn {
    Hurt,
    Next(Task),
    Done(Answer),
}

// What a step's phase comes to: the task's turn, and whether a put-in committed. A commit goes with Next and with Done, so the flag is no Option.
#[derive(Clone, Copy)]
pub struct Outcome {
    pub turn: Turn,
    pub committed: bool,
}

// What a call hands back beside the table.
#[derive(Clone, Copy)]
pub struct Out {
    pub state: State,
    pub answer: Answer,
}

// The rows of the settling table that z and s decide; Outranked is one of them in the definition `parent_row`: no Option.
#[derive(Clone, Copy)]
pub enum ParentRow {
    Outranked,
    Promote,
    Wider,
}

// The rows that x, y and w decide; NoRow is one of them in the definition `level_row`: no Option.
#[derive(Clone, Copy)]
pub enum LevelRow {
    NoRow,
    RotateOne,
    RotateTwo,
    DoubleRotation,
}

// Where the records around a level record stand: z under pz, x under z (true: the left child), and the slots s, y and w.
#[derive(Clone, Copy)]
pub struct Around {
    pub high: bool,
    pub side: bool,
    pub s: u32,
    pub y: u32,
    pub w: u32,
}

#[derive(Clone, Copy, Default)]
pub struct Figures {
    pub height: u32,
    pub level: u32,
    pub c: u32,
    pub m: u32,
    pub fares: u32,
    pub free: u32,
    pub allowed: u32,
}

// What figures hands back. Refused figures are zeros (`Calls.no_report`), as the contract of figures says: no Result.
#[derive(Clone, Copy)]
pub struct Report {
    pub answer: Answer,
    pub figures: Figures,
}

// A record of a call file; a bad one is served and printed like the others (`CallFile.serve`): no Result.
#[derive(Clone, Copy)]
pub enum Call {
    Begin(Operation, u32, Job),
    Steps(u32, u32),
    Abandon(u32),
    Tidy,
    Bad,
}

// Each enum of stages has a text of its own for its next stage: their variants hold their links in fields of their own.
impl PutStage {
    // The links of the record read are noted.
    pub fn noted(self, l: Links) -> PutStage
        ensures { result ≡ noted_put self l }
    {
        match self {
            PutStage::PutParent => PutStage::PutLeaf(l),
            PutStage::PutLeaf(a) => PutStage::PutCommit(a, l),
            PutStage::PutCommit(a, b) => PutStage::PutCommit(a, b),
        }
    }
}

impl TakeStage {
    pub fn noted(self, l: Links) -> TakeStage
        ensures { result ≡ noted_take self l }
    {
        match self {
            TakeStage::TakeGrand => TakeStage::TakeParent(l),
            TakeStage::TakeParent(a) => TakeStage::TakeLeft(a, l),
            TakeStage::TakeLeft(a, b) => TakeStage::TakeRight(a, b, l),
            TakeStage::TakeRight(a, b, c) => TakeStage::TakeCommit(a, b, c, l),
            TakeStage::TakeCommit(a, b, c, d) => TakeStage::TakeCommit(a, b, c, d),
        }
    }
}

impl SettleStage {
    pub fn noted(self, l: Links) -> SettleStage
        ensures { result ≡ noted_settle self l }
    {
        match self {
            SettleStage::SettleGrand => SettleStage::SettleParent(l),
            SettleStage::SettleParent(a) => SettleStage::SettleChoose(a, l),
            SettleStage::SettleChoose(a, b) => SettleStage::SettleRotate(a, b, l),
            SettleStage::SettleRotate(a, b, c) => SettleStage::SettleDouble(a, b, c, l),
            SettleStage::SettleDouble(a, b, c, d) => SettleStage::SettleDouble(a, b, c, d),
        }
    }
}

impl Phase {
    pub fn noted(self, l: Links) -> Phase
        ensures { result ≡ noted_phase self l }
    {
        match self {
            Phase::Start(g) => Phase::Start(g),
            Phase::Walk(g, q) => Phase::Walk(g, q),
            Phase::PuttingIn(q, s) => Phase::PuttingIn(q, s.noted(l)),
            Phase::TakingOut(q, s) => Phase::TakingOut(q, s.noted(l)),
            Phase::Settling(q, s) => Phase::Settling(q, s.noted(l)),
        }
    }

    // What the task walks for.
    pub fn goal(self) -> Goal
        ensures { result ≡ goal_of self }
    {
        match self {
            Phase::Start(g) => g,
            Phase::Walk(g, _) => g,
            Phase::PuttingIn(_, _) => Goal::Serve(Operation::PutIn),
            Phase::TakingOut(_, _) => Goal::Serve(Operation::TakeOut),
            Phase::Settling(_, _) => Goal::Settle,
        }
    }
}

impl Goal {
    pub fn settles(self) -> bool
        ensures { result ≡ goal_settles self }
    {
        matches!(self, Goal::Settle)
    }
}

impl Task {
    pub fn idle() -> Task
        ensures { result ≡ idle_task }
    {
        Task { work: Work::Idle }
    }

    // Begin: busy with what is handed in, about to walk from the entry.
    pub fn begun(self, o: Operation, j: Job) -> Task
        ensures { result ≡ begun o j }
    {
        Task {
            work: Work::Busy(j, Phase::Start(Goal::Serve(o))),
        }
    }

    // A reading is noted.
    pub fn noted(self, l: Links) -> Task
        ensures { result ≡ noted self l }
    {
        match self.work {
            Work::Idle => Task { work: Work::Idle },
            Work::Busy(j, f) => Task {
                work: Work::Busy(j, f.noted(l)),
            },
        }
    }

    // The walk starts again at the next step.
    pub fn restarted(self) -> Task
        ensures { result ≡ restarted self }
    {
        match self.work {
            Work::Idle => Task { work: Work::Idle },
            Work::Busy(j, f) => Task {
                work: Work::Busy(j, Phase::Start(f.goal())),
            },
        }
    }

    pub fn abandoned(self) -> Task
        ensures { result ≡ abandoned self }
    {
        Task { work: Work::Idle }
    }

    pub fn is_busy(self) -> bool
        ensures { result ≡ is_busy self.work }
    {
        matches!(self.work, Work::Busy(_, _))
    }

    pub fn settles(self) -> bool
        ensures { result ≡ work_settles self.work }
    {
        match self.work {
            Work::Idle => false,
            Work::Busy(_, f) => f.goal().settles(),
        }
    }
}

impl Answer {
    // The price that an answer carries.
    pub fn price(self) -> u32
        ensures { result ≡ price_of self }
    {
        match self {
            Answer::Found(p) => p,
            _ => 0,
        }
    }
}

impl From<Refusal> for Answer {
    ghost from_gives = { λ r a. a ≡ answer_of r };

    fn from(r: Refusal) -> Answer {
        match r {
            Refusal::TaskNumber => Answer::TaskNumber,
            Refusal::OutOfRange => Answer::OutOfRange,
            Refusal::TaskBusy => Answer::TaskBusy,
            Refusal::TaskIdle => Answer::TaskIdle,
            Refusal::SomeBusy => Answer::SomeBusy,
            Refusal::NoRoom => Answer::NoRoom,
            Refusal::Limit => Answer::Limit,
            Refusal::Damaged => Answer::Damaged,
            Refusal::Length => Answer::Length,
            Refusal::BadRecord => Answer::BadRecord,
        }
    }
}

// The paper's number of an answer.
impl From<Answer> for u32 {
    ghost from_gives = { λ a n. n ≡ number_of a };

    fn from(a: Answer) -> u32 {
        match a {
            Answer::Accepted => 0,
            Answer::Found(_) => 1,
            Answer::NotHeld => 2,
            Answer::PutSettled => 3,
            Answer::HeldAlready => 4,
            Answer::TakenOut => 5,
            Answer::PutUnsettled => 6,
            Answer::TaskNumber => 10,
            Answer::OutOfRange => 11,
            Answer::TaskBusy => 12,
            Answer::TaskIdle => 13,
            Answer::SomeBusy => 14,
            Answer::NoRoom => 15,
            Answer::Limit => 16,
            Answer::Damaged => 17,
            Answer::Length => 18,
            Answer::BadRecord => 19,
        }
    }
}

// The operation that a number names.
impl TryFrom<u32> for Operation {
    type Error = NoOperation;

    ghost try_from_gives = { λ n r. r ≡ operation_at n };

    fn try_from(n: u32) -> Result<Operation, NoOperation> {
        match n {
            1 => Ok(Operation::LookUp),
            2 => Ok(Operation::PutIn),
            3 => Ok(Operation::TakeOut),
            _ => Err(NoOperation { number: n }),
        }
    }
}

// The seven figures in their order, with a space between.
impl fmt::Display for Figures {
    ghost output = { λ f. Some (figures_text f) };

    fn fmt<W: fmt::Write>(&self, f: &mut fmt::Formatter<W>) -> fmt::Result {
        write!(
            f,
            "{} {} {} {} {} {} {}",
            self.height, self.level, self.c, self.m, self.fares, self.free, self.allowed
        )
    }
}
