//! What the last lines of a server count.
ghost use Rattle.std.specs.Prelude.{◌≡◌};
ghost use Rattle.xcpd.specs.Counted.{counts_at_end, counts_at_stop};

use xcp_program::Counts;
use xcp_server::Report;

/// Of a server that ended with its tools and tasks.
pub fn counts_at_end(report: &Report) -> Counts
    ensures { result ≡ counts_at_end report.now }
{
    Counts {
        chapters: report.chapters,
        calls: report.calls,
        lost: report.lost,
        late: 0,
    }
}

/// Of a server that stayed.
pub fn counts_at_stop(report: &xcp_stay::StayReport) -> Counts
    ensures { result ≡ counts_at_stop report.now }
{
    Counts {
        chapters: report.chapters,
        calls: report.calls,
        lost: report.lost,
        late: report.late,
    }
}
