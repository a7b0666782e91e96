//! No value makes a line of its own.
ghost use Rattle.std.specs.Prelude.{◌≡◌, ◌==◌, length};
ghost use Rattle.std.specs.List.{count_by};
ghost use Rattle.pgw_prog_commands.specs.declared.report.CheckReport.{CheckReport};
ghost use Rattle.pgw_prog_commands.specs.Report.{check_lines, report_text};

/// A report has as many ends of lines as lines, whatever the server told.
#[tactic(auto, using(crate::proofs::ReportLaws::lines_kept))]
pub fn reports_keep_their_lines()
    ensures { (r : CheckReport)
        → count_by (λ byte. byte == 10) (report_text r) ≡ length (check_lines r) }
{}
