// What headers, rows and lines of names say.
ghost use Rattle.rb_rows.specs.Laws.{HeaderNamesColumns, HeaderFaultIsFirst, RowTellsNumbers, PlainLineSplits, ColumnLineReadsBack, HeadLineReadsBack};

/// Each field of a header is a remark or names the column whose number it stands for, and none is named twice. A fault is the first.
pub fn header_law()
    ensures columns { HeaderNamesColumns }
    ensures first { HeaderFaultIsFirst }
{}

/// Each number that a header names has the bracket of its field, or is what it was where that is empty. Every other number, and gravity, is what it was.
/// The fields of a line without quotes are what stands between its commas, where it is not empty, has no CR or LF in it and no byte order mark before it.
pub fn row_law()
    ensures told { RowTellsNumbers }
    ensures plain { PlainLineSplits }
{}

/// The lines of names read back as their names: that of a robot's columns, where it has any, and the first line of the output.
pub fn line_law()
    ensures columns { ColumnLineReadsBack }
    ensures head { HeadLineReadsBack }
{}
