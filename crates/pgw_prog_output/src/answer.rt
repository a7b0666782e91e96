//! The printing of an answer.
ghost use Rattle.std.specs.Prelude.{◌≡◌, None, IfOk};
ghost use Rattle.pgw_prog_output.specs.declared.said.Said.TheVariants as said;
ghost use Rattle.pgw_prog_output.specs.Answers.{HearsSaid, Shuts, columns_open as opened_in};

use crate::columns::Column;
use crate::layout::Row;
use crate::printer::{RowFormat, RowPrinter};
use crate::said::Said;
use pgw_types::listed::Listed;
use pgw_types::memory::OutOfMemory;
use std::alloc::Global;

/// Where the printing of an answer stands: how rows are printed, the result that is open, and how many columns it has.
#[derive(Debug, Drop)]
pub struct Answer {
    pub format: RowFormat,
    pub printer: Option<RowPrinter>,
    pub columns: usize,
}

impl Answer {
    /// No result is open.
    pub fn new(format: RowFormat) -> Answer
        ensures { result ≡ record { format = format; printer = None; columns = 0 } }
    {
        Answer {
            format,
            printer: None,
            columns: 0,
        }
    }

    /// How many columns the result has that is open, where one is.
    pub fn opened(&self) -> Option<usize>
        ensures { result ≡ opened_in self.now }
    {
        match self.printer {
            Some(_) => Some(self.columns),
            None => None,
        }
    }

    /// Prints what is open to its end.
    #[tactic(auto, using(crate::proofs::AnswerLaws::shut_none, crate::proofs::AnswerLaws::shut_some))]
    pub fn shut(self, alloc: Global, out: &mut Vec<u8>) -> Result<Answer, OutOfMemory>
        ensures { IfOk result (Shuts self out.old.items out.new.items) }
    {
        let Answer {
            format,
            printer,
            ..
        } = self;
        if let Some(printer) = printer {
            printer.finish(alloc, out)?;
        }
        Ok(Answer::new(format))
    }

    // Begins a result, where none is open.
    #[tactic(auto, using(crate::proofs::AnswerLaws::begun))]
    fn begin(
        self,
        alloc: Global,
        columns: Listed<Column>,
        out: &mut Vec<u8>,
    ) -> Result<Answer, OutOfMemory>
        requires { self.printer ≡ None }
        ensures { IfOk result (HearsSaid self (said.Columns columns) out.old.items out.new.items) }
    {
        let Answer {
            format,
            printer,
            ..
        } = self;
        drop(printer);
        let count = columns.len();
        let printer = RowPrinter::begin(alloc, format, columns, out)?;
        Ok(Answer {
            format,
            printer: Some(printer),
            columns: count,
        })
    }

    // Prints a row of the result that is open; one of none is passed over.
    #[tactic(auto, using(crate::proofs::AnswerLaws::row_printed, crate::proofs::AnswerLaws::row_passed))]
    fn row(self, alloc: Global, row: Row, out: &mut Vec<u8>) -> Result<Answer, OutOfMemory>
        ensures { IfOk result (HearsSaid self (said.Row row) out.old.items out.new.items) }
    {
        let Answer {
            format,
            printer,
            columns,
        } = self;
        match printer {
            Some(printer) => {
                let printer = printer.row(alloc, row, out)?;
                Ok(Answer {
                    format,
                    printer: Some(printer),
                    columns,
                })
            }
            None => {
                drop(row);
                Ok(Answer::new(format))
            }
        }
    }

    /// Prints what comes next of an answer.
    #[tactic(auto, using(crate::proofs::AnswerLaws::columns_heard, crate::proofs::AnswerLaws::beside_heard, crate::proofs::AnswerLaws::done_heard, crate::proofs::AnswerLaws::failed_heard, crate::proofs::AnswerLaws::ready_heard, crate::proofs::AnswerLaws::misplaced_heard))]
    pub fn hear(self, alloc: Global, said: Said, out: &mut Vec<u8>) -> Result<Answer, OutOfMemory>
        ensures { IfOk result (HearsSaid self said out.old.items out.new.items) }
    {
        match said {
            Said::Columns(columns) => {
                let answer = self.shut(alloc, out)?;
                answer.begin(alloc, columns, out)
            }
            Said::Row(row) => self.row(alloc, row, out),
            Said::Beside => Ok(self),
            Said::Done | Said::Failed | Said::Ready | Said::Misplaced => self.shut(alloc, out),
        }
    }
}
