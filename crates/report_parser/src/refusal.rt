/// Why a line of a report was not read.
#[derive(Clone, Copy, Debug, PartialEq, Eq)]
pub enum ReportRefusal {
    /// No row of a report has this text. The octet at this place, counted from 0, is the first that fits no line. If all
    /// octets fit but the text is cut, the place is the text's length.
    NotALine(usize),
    /// Memory ran out.
    Memory,
}
