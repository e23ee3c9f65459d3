//! What the definitions of an expansion say, in the words of whole lists.
ghost use Rattle.cps_chunk.specs.CourseLaws.{TraceIsOfTheList, ItemsAreTheList, ItemsAreFew, DependsOnAsksAlone, AsksEachKeyOnce};
ghost use Rattle.cps_chunk.specs.Standing.{StandsWhereItAsks, LocalLinesStandNowhere};

/// What a line does follows from the list of its statements.
pub fn trace_is_of_the_list()
    ensures { TraceIsOfTheList }
{}

/// The items of a line that isn't dropped are its own and those of the list.
pub fn items_are_the_list()
    ensures { ItemsAreTheList }
{}

/// A line has at most its own item and 20,000 others, none deeper than 10.
pub fn items_are_few()
    ensures { ItemsAreFew }
{}

/// A line does the same in two states that agree on what it asked.
pub fn depends_on_asks_alone()
    ensures { DependsOnAsksAlone }
{}

/// A line asks each key once, however many statements it stands for.
pub fn asks_each_key_once()
    ensures { AsksEachKeyOnce }
{}

/// A statement has its place in the block in use exactly if it asks where that block stands.
pub fn stands_where_it_asks()
    ensures { StandsWhereItAsks }
{}

/// A LOCAL line of a call has no place, and asks where no block stands.
pub fn local_lines_stand_nowhere()
    ensures { LocalLinesStandNowhere }
{}
