// Runs of bytes of one class, and texts at the front or further on.
ghost use Rattle.std.specs.Prelude.{◌≡◌, [], ◌∷◌};
ghost use Rattle.std.specs.List.{prefix_len, take_while};
ghost use Rattle.std.specs.Option.{option_copied};
ghost use Rattle.rb_tags.specs.Bytes.{is_space, is_name_byte, quote_byte, has_of, past, after_front, after_first};

/// A space, a tab, a CR or an LF.
#[tactic(auto, unfolding(crate::specs::Bytes::is_space))]
pub fn is_space(byte: u8) -> bool
    ensures { result ≡ is_space byte }
{
    byte == b' ' || byte == b'\t' || byte == b'\r' || byte == b'\n'
}

/// What may stand in a name: other than white space and `/ > = < " ' &`.
#[tactic(auto, unfolding(crate::specs::Bytes::is_name_byte))]
fn is_name_byte(byte: u8) -> bool
    ensures { result ≡ is_name_byte byte }
{
    !is_space(byte)
        && byte != b'/'
        && byte != b'>'
        && byte != b'='
        && byte != b'<'
        && byte != b'"'
        && byte != b'\''
        && byte != b'&'
}

/// The mark round a value.
#[derive(Clone, Copy)]
pub enum Quote {
    Double,
    Single,
}

impl Quote {
    /// Its byte.
    fn byte(self) -> u8
        ensures { result ≡ quote_byte self }
    {
        match self {
            Quote::Double => b'"',
            Quote::Single => b'\'',
        }
    }

    /// It as a text.
    pub fn as_str(self) -> &'static str
        ensures { result.now ≡ quote_byte self ∷ [] }
    {
        match self {
            Quote::Double => "\"",
            Quote::Single => "'",
        }
    }
}

/// A class of bytes.
#[derive(Clone, Copy)]
pub enum Class {
    /// White space.
    Space,
    /// What may stand in a name.
    Name,
    /// What may stand in a value between two such quotes.
    Value(Quote),
    /// What may stand between marks: other than `<`.
    Text,
    /// What may stand in a reference: other than `;`.
    Reference,
}

impl Class {
    /// Whether the byte is of the class.
    #[tactic(auto, unfolding(crate::specs::Bytes::is_value_byte, crate::specs::Bytes::is_text_byte, crate::specs::Bytes::is_reference_byte))]
    fn has(self, byte: u8) -> bool
        ensures { result ≡ has_of self byte }
    {
        match self {
            Class::Space => is_space(byte),
            Class::Name => is_name_byte(byte),
            Class::Value(quote) => byte != quote.byte() && byte != b'<',
            Class::Text => byte != b'<',
            Class::Reference => byte != b';',
        }
    }

    /// How many bytes at the front are of the class.
    fn run_len(self, text: &str) -> usize
        ensures { result ≡ prefix_len (has_of self) text.now }
    {
        text.as_bytes()
            .iter()
            .take_while(|byte| self.has(**byte))
            .count()
    }

    /// The longest run of the class at the front, and the text after it.
    #[tactic(auto, using(crate::proofs::Runs::run_boundary), unfolding(crate::specs::Bytes::past))]
    pub fn run(self, text: &str) -> (&str, &str)
        ensures front { result.0.now ≡ take_while (has_of self) text.now }
        ensures rest { result.1.now ≡ past (has_of self) text.now }
    {
        text.split_at(self.run_len(text))
    }

    /// The text after the longest run of the class at the front.
    pub fn past(self, text: &str) -> &str
        ensures { result.now ≡ past (has_of self) text.now }
    {
        self.run(text).1
    }
}

/// The text after another that is to stand at its front.
pub fn past_front<'b>(front: &str, text: &'b str) -> Option<&'b str>
    ensures { option_copied result ≡ after_front front.now text.now }
{
    text.strip_prefix(front)
}

/// The text after the first place where another stands.
pub fn past_first<'b>(closing: &str, text: &'b str) -> Option<&'b str>
    ensures { option_copied result ≡ after_first closing.now text.now }
{
    let (_, rest) = text.split_once(closing)?;
    Some(rest)
}
