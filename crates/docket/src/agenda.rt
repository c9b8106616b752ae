//! The calls of one day.

ghost use Rattle.std.specs.Prelude.{◌≡◌, [], ◌∷◌, ◌++◌, OnOk, None};
ghost use Rattle.docket.specs.Answers.{became, answered};

use crate::answers::{Answer, Denial, Hindrance, answer_to};
use crate::openings::Opening;
use console::Failure;
use day::{Call, Step};
use market::Refusal;
use merit::BidCurve;
use std::alloc::Global;

/// What a line of a day asks for.
#[derive(Clone, Copy)]
pub enum Subject {
    /// Another day, whose limits are refused.
    RefusedOpening(Refusal),
    /// A bid whose curve is refused.
    RefusedCurve(Refusal),
    /// The call of the step at an index.
    Step(usize),
    /// The close of the day, by the step at an index.
    Close(usize),
    /// The verdict on a proposal.
    Verdict,
    /// Settlement lines.
    Settlement,
}

/// A line of a day that is to be answered.
#[derive(Clone, Copy)]
pub struct Question {
    pub line: usize,
    pub subject: Subject,
}

/// The calls of one day: the line that opens it, the questions of the lines after that, and the steps for the day. The
/// steps are a list of their own, which questions name by index, since `day::run` makes the calls of one slice of steps.
#[derive(Drop)]
pub struct Agenda {
    pub line: usize,
    pub opening: Opening,
    pub questions: Vec<Question>,
    pub steps: Vec<Step<BidCurve>>,
}

impl Agenda {
    /// A day without calls, opened by a line.
    pub fn new(heap: Global, line: usize, opening: Opening) -> Agenda
        ensures line { result.line ≡ line }
        ensures opening { result.opening ≡ opening }
        ensures questions { result.questions.items ≡ [] }
        ensures steps { result.steps.items ≡ [] }
    {
        Agenda {
            line,
            opening,
            questions: Vec::new(heap),
            steps: Vec::new(heap),
        }
    }

    /// Adds a question.
    pub fn ask(&mut self, line: usize, subject: Subject) -> Result<(), Failure>
        ensures asked { OnOk result (self.new.questions.items ≡ self.old.questions.items ++ (record { line = line; subject = subject } ∷ [])) }
        ensures same { self.new.steps.items ≡ self.old.steps.items }
    {
        self.questions.push(Question { line, subject })?;
        Ok(())
    }

    /// Adds a call, as a step with its question.
    pub fn add_call(&mut self, line: usize, call: Call<BidCurve>) -> Result<(), Failure>
        ensures { OnOk result (self.new.steps.items ≡ self.old.steps.items ++ (record { call = call; outcome = None } ∷ [])) }
    {
        let index = self.steps.len();
        let subject = match call {
            Call::Close => Subject::Close(index),
            _ => Subject::Step(index),
        };
        self.ask(line, subject)?;
        let outcome = None;
        self.steps.push(Step { call, outcome })?;
        Ok(())
    }

    /// The answer to what a line asks for, on a day that is closed by then or not.
    pub fn answer(&self, subject: Subject, is_closed: bool) -> Answer
        ensures { result ≡ answered self.now.steps.items subject is_closed }
    {
        match subject {
            Subject::RefusedOpening(refusal) => Err(Denial::Refused(refusal)),
            Subject::RefusedCurve(_) if is_closed => Err(Denial::NotAllowed(Hindrance::DayClosed)),
            Subject::RefusedCurve(refusal) => Err(Denial::Refused(refusal)),
            Subject::Step(index) | Subject::Close(index) => answer_to(self.outcome(index)),
            Subject::Verdict if is_closed => Err(Denial::NotAllowed(Hindrance::NotJudged)),
            Subject::Verdict => Err(Denial::NotAllowed(Hindrance::DayOpen)),
            Subject::Settlement => Err(Denial::NotAllowed(Hindrance::NotCleared)),
        }
    }

    /// What became of the call of the step at an index.
    fn outcome(&self, index: usize) -> Option<Result<(), Refusal>>
        ensures { result ≡ became self.now.steps.items index }
    {
        self.steps.get(index).and_then(|step| step.outcome)
    }
}
