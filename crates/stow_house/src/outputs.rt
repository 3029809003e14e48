//! What a run led to.
ghost use Rattle.std.specs.Prelude.{◌≡◌, ◌++◌, ◌∷◌, [], ℕ, length, OnOk, OnErr, IfOk, map};
ghost use Rattle.stow_house.specs.StepResult.{step_result_of};
ghost use Rattle.stow_house.specs.Outputs.{told_in, marks_in, told_as, HasPlace, tells, marks, bytes_to};

use crate::mark::Mark;
use crate::step_result::StepResult;
use crate::told::Told;
use std::alloc::{AllocError, Allocator, Global};
use stow_resp::encode::Encode;

/// The replies of a run in order, and for each event whether memory was refused to it.
#[derive(Drop)]
pub struct Outputs<A: Allocator = Global> {
    told: Vec<Told<A>, A>,
    marks: Vec<Mark, A>,
}

impl<A: Allocator + Copy> Outputs<A> {
    /// Nothing has happened yet.
    pub fn new(alloc: A) -> Outputs<A>
        ensures told { told_in result ≡ [] }
        ensures marks { marks_in result ≡ [] }
    {
        Outputs {
            told: Vec::new(alloc),
            marks: Vec::new(alloc),
        }
    }

    /// All that was told, in order.
    pub fn told(&self) -> &[Told<A>]
        ensures { map told_as result.now ≡ told_in self.now }
    {
        self.told.as_slice()
    }

    /// For each event, in order, whether memory was refused to it.
    pub fn marks(&self) -> &[Mark]
        ensures { result.now ≡ marks_in self.now }
    {
        self.marks.as_slice()
    }

    /// The bytes that a connection is told.
    pub fn bytes(&self, alloc: A, connection: u32) -> Result<Vec<u8, A>, AllocError>
        ensures { IfOk result (λ bytes. bytes.items ≡ bytes_to connection (told_in self.now)) }
    {
        let mut bytes = Vec::new(alloc);
        for told in &self.told {
            if told.connection == connection {
                told.reply.write(&mut bytes)?;
            }
        }
        Ok(bytes)
    }

    /// Makes room for one event.
    pub fn reserve(&mut self) -> Result<(), AllocError>
        ensures told { told_in self.new ≡ told_in self.old }
        ensures marks { marks_in self.new ≡ marks_in self.old }
        ensures room { OnOk result (HasPlace self.new) }
    {
        self.told.reserve(1)?;
        self.marks.reserve(1)
    }

    /// Adds what an event of this connection, if it has one, led to.
    pub fn add(&mut self, connection: u32, answer: StepResult<A>)
        requires { HasPlace self.old }
        ensures told { told_in self.new ≡ told_in self.old ++ tells connection answer }
        ensures marks { marks_in self.new ≡ marks_in self.old ++ marks (step_result_of answer) }
    {
        let _ = self.marks.push(answer.mark());
        if let StepResult::Answered(reply) = answer {
            let _ = self.told.push(Told { connection, reply });
        }
    }
}
