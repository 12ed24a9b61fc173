ghost use Rattle.trace_text.specs.TextLaws.{TracesEndAlike, TracesHaveTheLinesTheySay};

/// The text of a trace is `trace N`, and N more lines.
pub fn a_trace_has_as_many_lines_as_it_says()
    ensures { TracesHaveTheLinesTheySay }
{}

/// So in a text of replies it's seen where a trace ends: on two versions of a model, the traces of a cell with a line
/// end and more behind them are the same texts only where the traces are the same.
pub fn traces_end_alike()
    ensures { TracesEndAlike }
{}
