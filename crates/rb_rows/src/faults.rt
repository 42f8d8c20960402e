ghost use Rattle.std.specs.Prelude.{◌≡◌, ◌≤◌, length, Some};
ghost use Rattle.rb_rows.specs.Faults.{header_word, header_text, field_word, field_text, no_memory, kind_of};

use rb_text::TextFault;
use std::alloc::{AllocError, AllocFailed};
use std::error::Error;
use std::fmt;

/// What is wrong with a header.
#[derive(Clone, Copy, Debug, PartialEq, Eq)]
pub enum HeaderKind {
    /// It is not one record, or not in UTF-8, or there is none: field 0.
    BadHeader,
    /// A field is no column of the robot, and no remark.
    UnknownColumn,
    /// A field names a column that an earlier one names.
    ColumnTwice,
    /// For want of memory: field 0.
    Memory,
}

impl HeaderKind {
    /// Its word.
    pub fn word(self) -> &'static str
        ensures word { result.now ≡ header_word self }
        ensures short { length result.now ≤ 13 }
    {
        match self {
            HeaderKind::BadHeader => "BadHeader",
            HeaderKind::UnknownColumn => "UnknownColumn",
            HeaderKind::ColumnTwice => "ColumnTwice",
            HeaderKind::Memory => "Memory",
        }
    }
}

impl fmt::Display for HeaderKind {
    ghost output = { λ kind. Some (header_word kind) };

    fn fmt<W: fmt::Write>(&self, f: &mut fmt::Formatter<W>) -> fmt::Result {
        f.write_str(self.word())
    }
}

impl Error for HeaderKind {}

/// What is wrong with a header, and the number of the field from 1.
#[derive(Clone, Copy, Debug, PartialEq, Eq)]
pub struct HeaderFault {
    pub kind: HeaderKind,
    pub field: u32,
}

impl fmt::Display for HeaderFault {
    ghost output = { λ fault. Some (header_text fault) };

    fn fmt<W: fmt::Write>(&self, f: &mut fmt::Formatter<W>) -> fmt::Result {
        let HeaderFault { kind, field } = *self;
        write!(f, "{kind} at field {field}")
    }
}

impl Error for HeaderFault {}

impl From<AllocError> for HeaderFault {
    ghost from_gives = { λ _ fault. fault ≡ no_memory };

    fn from(_error: AllocError) -> HeaderFault {
        HeaderFault {
            kind: HeaderKind::Memory,
            field: 0,
        }
    }
}

impl<T: Drop> From<AllocFailed<T>> for HeaderFault {
    ghost from_gives = { λ _ fault. fault ≡ no_memory };

    fn from(_failed: AllocFailed<T>) -> HeaderFault {
        HeaderFault {
            kind: HeaderKind::Memory,
            field: 0,
        }
    }
}

/// What is wrong with the fields of a line.
#[derive(Clone, Copy, Debug, PartialEq, Eq)]
pub enum FieldKind {
    /// There is not one for each field of the header; 0 where the line is not one record.
    Count,
    /// It is no number text.
    NotNumber,
    /// Its range runs backwards.
    Backwards,
    /// Its size is above 10^12.
    TooLarge,
}

impl FieldKind {
    /// Its word.
    pub fn word(self) -> &'static str
        ensures word { result.now ≡ field_word self }
        ensures short { length result.now ≤ 9 }
    {
        match self {
            FieldKind::Count => "Count",
            FieldKind::NotNumber => "NotNumber",
            FieldKind::Backwards => "Backwards",
            FieldKind::TooLarge => "TooLarge",
        }
    }
}

impl fmt::Display for FieldKind {
    ghost output = { λ kind. Some (field_word kind) };

    fn fmt<W: fmt::Write>(&self, f: &mut fmt::Formatter<W>) -> fmt::Result {
        f.write_str(self.word())
    }
}

impl Error for FieldKind {}

/// What is wrong with the fields of a line, and the number of the field from 1: of `Count`, how many there are.
#[derive(Clone, Copy, Debug, PartialEq, Eq)]
pub struct FieldFault {
    pub kind: FieldKind,
    pub field: u32,
}

impl fmt::Display for FieldFault {
    ghost output = { λ fault. Some (field_text fault) };

    fn fmt<W: fmt::Write>(&self, f: &mut fmt::Formatter<W>) -> fmt::Result {
        let FieldFault { kind, field } = *self;
        write!(f, "{kind}[{field}]")
    }
}

impl Error for FieldFault {}

/// The kind of a field whose text has this fault.
pub(crate) fn kind_of(fault: TextFault) -> FieldKind
    ensures { result ≡ kind_of fault }
{
    match fault {
        TextFault::NotNumber => FieldKind::NotNumber,
        TextFault::TooLarge => FieldKind::TooLarge,
        TextFault::Backwards => FieldKind::Backwards,
    }
}

/// Why a line tells no state.
#[derive(Clone, Copy, Debug, PartialEq, Eq)]
pub enum LineFault {
    Field(FieldFault),
    Memory,
}

impl From<AllocError> for LineFault {
    ghost use Rattle.rb_rows.specs.declared.faults.LineFault.TheVariants.{Memory};

    ghost from_gives = { λ _ fault. fault ≡ Memory };

    fn from(_error: AllocError) -> LineFault {
        LineFault::Memory
    }
}

impl From<FieldFault> for LineFault {
    ghost use Rattle.rb_rows.specs.declared.faults.LineFault.TheVariants.{Field};

    ghost from_gives = { λ fault line. line ≡ Field fault };

    fn from(fault: FieldFault) -> LineFault {
        LineFault::Field(fault)
    }
}
