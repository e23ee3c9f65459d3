//! The same of the courses that source lines have.
ghost use Rattle.cps_chunk.specs.LineLaws.{LineIsOfTheList, LineItemsAreTheList, LineItemsAreFew, LineDependsOnAsksAlone, LineAsksEachKeyOnce};

/// What a source line does follows from the list of the statements that it stands for.
pub fn trace_of_a_line_is_of_its_list()
    ensures { LineIsOfTheList }
{}

/// The items of a source line that isn't dropped are its own and those of the list.
pub fn items_of_a_line_are_its_list()
    ensures { LineItemsAreTheList }
{}

/// A source line has at most its own item and 20,000 others, none deeper than 10.
pub fn items_of_a_line_are_few()
    ensures { LineItemsAreFew }
{}

/// A source line does the same in two states that agree on what it asked.
pub fn a_line_depends_on_its_asks_alone()
    ensures { LineDependsOnAsksAlone }
{}

/// A source line asks each key once, however many statements it stands for.
pub fn a_line_asks_each_key_once()
    ensures { LineAsksEachKeyOnce }
{}
