//! What steps are to each other.

ghost use Rattle.rb_result.specs.Laws.{ValueFirst, ValueLast, Grouped};

/// A step that is a value changes nothing before or behind another, and three steps may be grouped
/// either way.
pub fn steps_law<E, A, B, C>()
    ensures first { ValueFirst E A B }
    ensures last { ValueLast E A }
    ensures grouped { Grouped E A B C }
{}
