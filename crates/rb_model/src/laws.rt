// What the model of a robot says.
ghost use Rattle.rb_model.specs.Laws.{ModelReadsBack, KindReadsBack};

/// The text of a model reads back as its lines, and the word of a kind of joint as the kind.
pub fn model_law()
    ensures lines { ModelReadsBack }
    ensures kinds { KindReadsBack }
{}
