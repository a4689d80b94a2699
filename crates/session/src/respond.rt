// A line of the format, carried out and answered.
ghost use Rattle.lines.specs.Requests.{meaning};
ghost use Rattle.lines.specs.Requests as request;
ghost use Rattle.session.specs.Steps.{Cuts, Told, Runs, Responds};

use super::state::Session;
use lines::answer::{Answer, Reason};
use lines::request::{Request, read_request};
use script::TextSource;
use std::alloc::{AllocError, Global};
use tokens::{Token, drain_source};

// An answer for each token, and room for the ending behind them, which would else move them all.
fn cuts(heap: Global, tokens: &[Token]) -> Result<Vec<Answer>, AllocError>
    ensures { Cuts tokens.now result }
{
    let mut answers = Vec::with_capacity(heap, tokens.len().saturating_add(1))?;
    answers.extend(tokens.iter().map(|token| Answer::Cut(*token)))?;
    Ok(answers)
}

impl Session {
    // The tokens of the script, and the end or the fault behind them.
    fn tell_tokens(&self, heap: Global) -> Result<Vec<Answer>, AllocError>
        ensures { Told self.now result }
    {
        let mut source = TextSource::new(&self.script, &self.dialect);
        let drained = drain_source(heap, &mut source)?;
        let mut answers = cuts(heap, &drained.tokens)?;
        answers.push(drained.fault.map_or(Answer::End, Answer::fault))?;
        Ok(answers)
    }

    // Carries out what a line asks for.
    fn run(&mut self, heap: Global, request: Request) -> Result<Vec<Answer>, AllocError>
        ensures { Runs self.old self.new (meaning request) result }
    {
        match request {
            Request::Blank => {}
            Request::Literal(row) => self.literals.push(row)?,
            Request::Rule(row) => self.rules.push(row)?,
            Request::Start(symbol) => self.start = symbol,
            Request::Load => return Ok(vec![in heap; self.load(heap)]?),
            Request::Script(bytes) => self.script = bytes,
            Request::Tokens => return self.tell_tokens(heap),
        }
        Ok(Vec::new(heap))
    }
}

// What a line, without its line feed, does to the session and answers; `number` is the line's number.
#[tactic(auto, using(crate::proofs::Responding::responds))]
pub fn respond_to(
    heap: Global,
    session: &mut Session,
    number: u64,
    line: &[u8],
) -> Result<Vec<Answer>, AllocError>
    ensures { Responds session.old session.new number (request.read line.now) result }
{
    match read_request(heap, line)? {
        Some(request) => session.run(heap, request),
        None => Ok(vec![in heap;
            Answer::Error {
                line: number,
                reason: Reason::NotUnderstood,
            },
        ]?),
    }
}
