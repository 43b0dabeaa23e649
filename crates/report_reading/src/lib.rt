// The reading of a fence report: the program, the marks, and the parts of evidence (document 02, N10).
#![tactic(auto)]

use file_records::program::{Program, Row};

pub mod parts;
pub mod reading;
mod records;

// The program's record, and the marks, which begin where the program ends. The list's evidence follows them.
#[derive(Clone, Copy)]
pub struct ReportReading {
    pub program: Program,
    pub marks: Row,
}
