//! What queries and their texts are together, as laws over their definitions.

ghost use Rattle.rank_query.specs.Laws as laws;

/// A text is read as a query if and only if it denotes it. The canonical text of a query that can be asked
/// is short and shows in print.
pub fn queries_have_texts()
    ensures asked { laws.ReadAsAsked }
    ensures printed { laws.TextsArePrintable }
{}
