//! What holds of the stream.
ghost use Rattle.std.specs.Prelude.{◌≡◌, ◌<◌, ◌^◌, ℕ, List, length};
ghost use Rattle.pgw_session.specs.Transcript.{Completes, report_of};
ghost use Rattle.pgw_prog_sessions.specs.Stream.{IsStream, gen_segments, gen_rows};
ghost use Rattle.pgw_prog_sessions.specs.Summary.{gen_input, report_rows};

/// The stream completes the session of the user `gen` with its one query, and the report has its rows, as many as asked
/// for.
pub fn the_stream_completes_a_session()
    ensures completes { (nonce bytes : List ℕ) (count start : ℕ) → count < 2 ^ 64 →
        IsStream count start bytes → Completes (gen_input nonce) (length bytes) bytes
        (gen_segments nonce count start) }
    ensures rows { (nonce : List ℕ) (count start : ℕ) →
        report_rows (report_of (gen_input nonce) (gen_segments nonce count start))
        ≡ gen_rows count start }
    ensures counted { (count start : ℕ) → length (gen_rows count start) ≡ count }
{}
