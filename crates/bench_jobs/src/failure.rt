//! Why a job ends before its time.
use fit_csv::CsvFault;
use fit_decode::Fault;
use fit_encode::EncodeFault;
use fit_report::ReportFault;
use std::alloc::AllocError;

/// What went wrong: the library refused what should be good, or there is no memory.
#[derive(Debug, Drop)]
pub(crate) enum Failure {
    /// The words of the command line name no job.
    Usage,
    /// Memory was refused.
    Memory,
    /// A recording was refused.
    Read(Fault),
    /// A record doesn't fit after those before it.
    Shape,
    /// A recording wasn't written.
    Write(EncodeFault),
    /// A conversion failed.
    Convert(CsvFault),
    /// The lines of a recording weren't written.
    Report(ReportFault),
    /// A command ended with this status.
    Status(u8),
}

impl From<AllocError> for Failure {
    fn from(_: AllocError) -> Failure {
        Failure::Memory
    }
}

impl From<Fault> for Failure {
    fn from(fault: Fault) -> Failure {
        Failure::Read(fault)
    }
}

impl From<EncodeFault> for Failure {
    fn from(fault: EncodeFault) -> Failure {
        Failure::Write(fault)
    }
}

impl From<CsvFault> for Failure {
    fn from(fault: CsvFault) -> Failure {
        Failure::Convert(fault)
    }
}

impl From<ReportFault> for Failure {
    fn from(fault: ReportFault) -> Failure {
        Failure::Report(fault)
    }
}
