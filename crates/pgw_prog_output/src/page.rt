//! What is written of an answer, as it comes.
ghost use Rattle.std.specs.Prelude.{◌≡◌, ◌⊎◌, ◌∷◌, [], ◌||◌, false, None, IfOk, IfErr, OnOk, OnErr};
ghost use Rattle.pgw_link.specs.Tape.{HasTapeCause};
ghost use Rattle.pgw_prog_output.specs.Answers.{HearsSaid, columns_open};
ghost use Rattle.pgw_prog_output.specs.Pages.{HasStopped, IsFront, PrintsHeard, sheet, whole_text};
ghost use Rattle.pgw_prog_output.specs.Said.{is_failed, said_rows_in, said_turn};

use crate::answer::Answer;
use crate::printer::RowFormat;
use crate::said::{Said, Turn, said_of};
use crate::told::told_of;
use crate::written::write_whole;
use pgw_backend::backend::PgWireBackendMessage;
use pgw_link::stream::{Sink, SinkFault};
use pgw_types::memory::OutOfMemory;
use std::alloc::Global;
use std::mem::replace;

/// Why printing stopped.
#[derive(Clone, Copy, Debug, PartialEq, Eq)]
pub enum Stop {
    /// A write failed.
    Output,
    Memory,
}

impl From<OutOfMemory> for Stop {
    ghost use Rattle.pgw_prog_output.specs.declared.page.Stop.TheVariants as stop;

    ghost from_gives = { λ _ e. e ≡ stop.Memory };

    fn from(_e: OutOfMemory) -> Stop {
        Stop::Memory
    }
}

impl From<SinkFault> for Stop {
    ghost use Rattle.pgw_prog_output.specs.declared.page.Stop.TheVariants as stop;

    ghost from_gives = { λ _ e. e ≡ stop.Output };

    fn from(_e: SinkFault) -> Stop {
        Stop::Output
    }
}

/// An answer that is printed, what of it waits to be written, and whether the server answered an error.
#[derive(Debug, Drop)]
pub struct Page {
    pub answer: Answer,
    pub out: Vec<u8>,
    pub failed: bool,
}

impl Page {
    pub fn new(alloc: Global, format: RowFormat) -> Page
        ensures answer { result.answer ≡ record {
          format = format;
          printer = None;
          columns = 0;
        } }
        ensures waits { result.out.items ≡ [] }
        ensures failed { result.failed ≡ false }
    {
        Page {
            answer: Answer::new(format),
            out: Vec::new(alloc),
            failed: false,
        }
    }

    // Prints what comes next.
    fn print(&mut self, alloc: Global, said: Said) -> Result<(), OutOfMemory>
        ensures text { OnOk result (HearsSaid self.old.answer said self.old.out.items
            self.new.out.items self.new.answer) }
        ensures failed { OnOk result (self.new.failed ≡ (self.old.failed || is_failed said)) }
    {
        self.failed = self.failed || said.is_failed();
        let format = self.answer.format;
        let answer = replace(&mut self.answer, Answer::new(format));
        self.answer = answer.hear(alloc, said, &mut self.out)?;
        Ok(())
    }

    /// Writes what waits.
    #[tactic(auto, using(crate::proofs::PageLaws::written_out, crate::proofs::PageLaws::written_part))]
    pub fn write_out<O: Sink>(&mut self, output: &mut O) -> Result<(), SinkFault>
        ensures cause { HasTapeCause (O.faults output.old) (O.faults output.new) result }
        ensures calm { OnOk result (O.faults output.new ≡ O.faults output.old) }
        ensures waits { OnOk result (self.new.out.items ≡ []) }
        ensures prints { OnOk result (PrintsHeard [] (sheet (O.tape output.old).wrote self.old)
            (sheet (O.tape output.new).wrote self.new)) }
        ensures front { OnErr result (IsFront [] (sheet (O.tape output.old).wrote self.old)
            (O.tape output.new).wrote) }
    {
        write_whole(output, &self.out)?;
        self.out.clear();
        Ok(())
    }

    /// Prints the end of the answer, and writes all that waits.
    pub fn finish<O: Sink>(&mut self, alloc: Global, output: &mut O) -> Result<(), Stop>
        ensures calm { OnOk result (O.faults output.new ≡ O.faults output.old) }
        ensures cause { IfErr result (HasStopped (O.faults output.old) (O.faults output.new)) }
        ensures failed { OnOk result (self.new.failed ≡ self.old.failed) }
        ensures wrote { OnOk result ((O.tape output.new).wrote
            ≡ whole_text (sheet (O.tape output.old).wrote self.old) []) }
        ensures front { OnErr result (IsFront [] (sheet (O.tape output.old).wrote self.old)
            (O.tape output.new).wrote) }
    {
        let format = self.answer.format;
        let answer = replace(&mut self.answer, Answer::new(format));
        self.answer = answer.shut(alloc, &mut self.out)?;
        write_whole(output, &self.out)?;
        Ok(())
    }

    // Tells people of a message, behind all that was printed before it.
    fn tell<O: Sink, E: Sink>(
        &mut self,
        alloc: Global,
        message: &PgWireBackendMessage,
        turn: Turn,
        query: &str,
        output: &mut O,
        errors: &mut E,
    ) -> Result<(), SinkFault>
        ensures cause { HasTapeCause (O.faults output.old) (O.faults output.new) result }
        ensures calm { OnOk result (O.faults output.new ≡ O.faults output.old) }
        ensures prints { OnOk result (PrintsHeard [] (sheet (O.tape output.old).wrote self.old)
            (sheet (O.tape output.new).wrote self.new)) }
        ensures front { OnErr result (IsFront [] (sheet (O.tape output.old).wrote self.old)
            (O.tape output.new).wrote) }
    {
        let told = told_of(alloc, message, turn, query);
        if !told.is_empty() {
            self.write_out(output)?;
            let _ = write_whole(errors, told.as_bytes());
        }
        Ok(())
    }

    /// Hears a message: prints it, and tells people of it.
    pub fn hear<O: Sink, E: Sink>(
        &mut self,
        alloc: Global,
        message: &PgWireBackendMessage,
        query: &str,
        output: &mut O,
        errors: &mut E,
    ) -> Result<Turn, Stop>
        ensures turn { IfOk result (λ turn. turn
            ≡ said_turn (said_rows_in (columns_open self.old.answer) message.now)) }
        ensures calm { OnOk result (O.faults output.new ≡ O.faults output.old) }
        ensures cause { IfErr result (HasStopped (O.faults output.old) (O.faults output.new)) }
        ensures prints { OnOk result (PrintsHeard
            (said_rows_in (columns_open self.old.answer) message.now ∷ [])
            (sheet (O.tape output.old).wrote self.old)
            (sheet (O.tape output.new).wrote self.new)) }
        ensures front { OnErr result (IsFront [] (sheet (O.tape output.old).wrote self.old)
            (O.tape output.new).wrote
            ⊎ IsFront (said_rows_in (columns_open self.old.answer) message.now ∷ [])
            (sheet (O.tape output.old).wrote self.old) (O.tape output.new).wrote) }
    {
        let said = said_of(alloc, message)?;
        let said = said.placed(self.answer.opened());
        let turn = said.turn();
        self.print(alloc, said)?;
        self.tell(alloc, message, turn, query, output, errors)?;
        Ok(turn)
    }
}
