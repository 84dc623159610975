// Laws of instance texts, of schedule texts and of what is printed, stated on their definitions alone.
ghost use Rattle.shop_model.specs.Shop.{Shop};
ghost use Rattle.shop_text.specs.{Formats.grammar_of, Names.FaultIsAnswered, Texts.{OneReading, SomeReading}};
ghost use Rattle.shop_text.specs.{Shapes.{OrlibShape, RoutesShape, TaillardShape}, declared.formats.Format.Format};
ghost use Rattle.shop_text.specs.{Schedules.{OneTable, SomeTable, TableFaultIsAnswered}, Writing.ShowsTheJob};
ghost use Rattle.shop_text.specs.RoundTrip.{ReportsAreSchedules, NamesAreVisible};

/// No text has two readings: not two lists of instances, nor two faults, nor a list and a fault.
pub fn one_reading()
    ensures { (format : Format) → OneReading (grammar_of format) }
{}

/// Each text has a reading: it is good, or it has a fault.
pub fn some_reading()
    ensures { (format : Format) → SomeReading (grammar_of format) }
{}

/// The readers refuse a text that has a fault by this fault, unless memory runs out.
pub fn faults_are_answered()
    ensures { (format : Format) → FaultIsAnswered (grammar_of format) }
{}

/// A part of `orlib` or `routes` is text lines, a size line of two numbers, and a row for each job: of machines and
/// times, in `routes` after a release. A part of `taillard` is text lines, a size line of 2 to 6 numbers, a matrix of
/// times and a matrix of machines, each with a row for each job and text lines only before its first row.
pub fn shapes_of_parts()
    ensures orlib { OrlibShape }
    ensures routes { RoutesShape }
    ensures taillard { TaillardShape }
{}

/// No schedule text has two readings for one instance: not two tables, nor two faults, nor a table and a fault.
pub fn one_table_reading()
    ensures { (shop : Shop) → OneTable shop }
{}

/// Each schedule text has a reading for each instance: it gives a table, or has a fault.
pub fn some_table_reading()
    ensures { (shop : Shop) → SomeTable shop }
{}

/// `read_table` refuses a schedule text that has a fault by this fault, unless memory runs out.
pub fn table_faults_are_answered()
    ensures { (shop : Shop) → TableFaultIsAnswered shop }
{}

/// A column of a Gantt text shows the one job that its machine serves at its instant, or a dot.
pub fn columns_show_the_job()
    ensures { ShowsTheJob }
{}

/// A report, alone or followed by its Gantt text, is a schedule text of just its table.
pub fn reports_are_schedules()
    ensures { ReportsAreSchedules }
{}

/// The names that a reader gives have visible bytes alone, as reports want them.
pub fn names_are_visible()
    ensures { (format : Format) → NamesAreVisible (grammar_of format) }
{}
