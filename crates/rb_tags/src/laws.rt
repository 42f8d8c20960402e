// The grammar of the files that are read.
ghost use Rattle.rb_tags.specs.Laws.{ReadsAccepted, AcceptedIsRead, HasOneList, RefusesFaulty, FaultyIsRefused};

/// A file has tags exactly where it is an optional byte order mark, parts that nest, and white space, and it has one list of them. It is refused exactly where it has a fault, and it has one fault.
pub fn tags_by_grammar()
    ensures sound { ReadsAccepted }
    ensures complete { AcceptedIsRead }
    ensures only { HasOneList }
    ensures refused { RefusesFaulty }
    ensures faulty { FaultyIsRefused }
{}
