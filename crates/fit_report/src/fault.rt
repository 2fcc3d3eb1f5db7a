//! Why a report fails.
use fit_decode::Fault;
use thiserror::Error;

/// Why a report doesn't come to the end of a chain.
#[derive(Clone, Copy, Debug, PartialEq, Eq, Error)]
pub enum ReportFault {
    /// The bytes are refused or end too soon, or the source failed. Out of memory is `NoMemory`, and never this.
    #[error("{0}")]
    Decode(Fault),
    /// Memory was refused.
    #[error("out of memory")]
    NoMemory,
    /// The sink failed after that many bytes of the report. The count stops at 2^64 - 1.
    #[error("write fault after {written} bytes")]
    Write { written: u64 },
}

impl From<Fault> for ReportFault {
    ghost use Rattle.std.specs.Prelude.{◌≡◌};
    ghost use Rattle.fit_report.specs.Reports.{report_fault};

    ghost from_gives = { λ f e. e ≡ report_fault f };

    fn from(fault: Fault) -> ReportFault {
        match fault {
            Fault::NoMemory { .. } => ReportFault::NoMemory,
            fault => ReportFault::Decode(fault),
        }
    }
}
