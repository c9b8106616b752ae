//! Running a script, day by day.

use crate::calls::add;
use crate::lines::Line;
use crate::reading::read_line;
use crate::report;
use console::{Failure, Reason};
use docket::{Agenda, Answer, Denial, Evening, Hindrance, Opening, Subject, Tables};
use market::Limits;

/// Runs a script: prints the answers to its calls, and then the report on the day that stands at its end.
pub fn run(rt: &HostRuntime, script: &str) -> Result<(), Failure> {
    let mut days = Days { rt, agenda: None };
    for (number, text) in (1..).zip(script.lines()) {
        match read_line(rt.alloc(), text) {
            Ok(None) => {}
            Ok(Some(line)) => days.follow(number, line)?,
            Err(reason) => {
                let _ = days.finish()?;
                return Err(Failure::Line(number, reason));
            }
        }
    }
    let evening = days.finish()?;
    println!(rt; "")?;
    match evening {
        Some(evening) => report::print(rt, &evening),
        None => {
            println!(rt; "No day was opened.")?;
            Ok(())
        }
    }
}

/// The days of a script: where their answers go, and the agenda of the day that stands, if one was opened.
#[derive(Drop)]
struct Days<'a> {
    rt: &'a HostRuntime,
    agenda: Option<Agenda>,
}

impl Days<'_> {
    /// Takes up one more line.
    fn follow(&mut self, number: usize, line: Line) -> Result<(), Failure> {
        if let Line::Open(opening) = line {
            return self.open(number, opening);
        }
        match &mut self.agenda {
            Some(agenda) => add(agenda, number, line),
            None if matches!(line, Line::Set(_)) => Ok(()),
            None => self.print_answer(number, Err(Denial::NotAllowed(Hindrance::NoDay))),
        }
    }

    /// Opens another day, after the day before it is run and answered. An opening that is refused leaves the day that
    /// stands.
    fn open(&mut self, number: usize, opening: Opening) -> Result<(), Failure> {
        if let Err(refusal) = Limits::new(opening.lowest, opening.highest) {
            return match &mut self.agenda {
                Some(agenda) => agenda.ask(number, Subject::RefusedOpening(refusal)),
                None => self.print_answer(number, Err(Denial::Refused(refusal))),
            };
        }
        let _ = self.finish()?;
        self.agenda = Some(Agenda::new(self.rt.alloc(), number, opening));
        Ok(())
    }

    /// Runs the day that stands and prints the answers to its lines.
    fn finish(&mut self) -> Result<Option<Evening>, Failure> {
        let Some(mut agenda) = self.agenda.take() else {
            return Ok(None);
        };
        let line = agenda.line;
        let mut tables = Tables::new(self.rt.alloc(), &agenda.opening).map_err(|_| Failure::Line(
            line,
            Reason::Tables,
        ))?;
        let day = day::run(
            agenda.opening.lowest,
            agenda.opening.highest,
            tables.hourly.as_mut_slice(),
            tables.blocks.as_mut_slice(),
            tables.flexible.as_mut_slice(),
            agenda.steps.as_mut_slice(),
        )
        .map_err(|refusal| Failure::Line(line, Reason::LimitsRefused(refusal)))?;
        self.print_answers(&agenda)?;
        Ok(Some(Evening { day, tables }))
    }

    /// Prints the answers to the lines of a day that was run.
    fn print_answers(&self, agenda: &Agenda) -> Result<(), Failure> {
        self.print_answer(agenda.line, Ok(()))?;
        let mut is_closed = false;
        for question in agenda.questions.iter() {
            let answer = agenda.answer(question.subject, is_closed);
            self.print_answer(question.line, answer)?;
            if matches!(question.subject, Subject::Close(_)) && answer.is_ok() {
                is_closed = true;
            }
        }
        Ok(())
    }

    /// Prints the answer to a line.
    fn print_answer(&self, number: usize, answer: Answer) -> Result<(), Failure> {
        let rt = self.rt;
        match answer {
            Ok(()) => println!(rt; "{number} ok")?,
            Err(denial) => println!(rt; "{number} {denial}")?,
        }
        Ok(())
    }
}
