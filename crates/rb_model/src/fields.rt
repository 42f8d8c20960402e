// The fields of a line.
ghost use Rattle.std.specs.Prelude.{◌≡◌, ◌++◌, ◌∷◌, [], map, replicate, decimal, OnOk};
ghost use Rattle.std.specs.Str.{IsUtf8};
ghost use Rattle.csv.specs.Writing.{default_writer, row_text};
ghost use Rattle.rb_num.specs.Text.{iv_text};

use rb_num::Iv;
use rb_rows::record_line;
use std::alloc::{AllocError, Global};
use std::marker::Model;
use std::str::from_utf8;

/// The fields of a line, in order.
#[derive(Drop)]
pub(crate) struct Fields {
    alloc: Global,
    texts: Vec<String>,
}

impl Model for Fields {
    ghost use Rattle.std.specs.Prelude.{List, ℕ, map, string_bytes};

    ghost Value = { List (List ℕ) };

    ghost view = { λ f. map string_bytes f.texts.items };
}

impl Fields {
    /// No fields.
    pub(crate) fn new(alloc: Global) -> Self
        ensures { result ≡ [] }
    {
        Fields {
            alloc,
            texts: Vec::new(alloc),
        }
    }

    /// Puts a text.
    pub(crate) fn put(&mut self, text: &str) -> Result<(), AllocError>
        ensures { OnOk result (self.new ≡ self.old ++ text.now ∷ []) }
    {
        self.texts.push(String::from_str(self.alloc, text)?)?;
        Ok(())
    }

    /// Puts a name.
    pub(crate) fn put_name(&mut self, name: &[u8]) -> Result<(), AllocError>
        requires { IsUtf8 name.now }
        ensures { OnOk result (self.new ≡ self.old ++ name.now ∷ []) }
    {
        self.put(from_utf8(name).unwrap())
    }

    /// Puts a number.
    pub(crate) fn put_number(&mut self, number: u32) -> Result<(), AllocError>
        ensures { OnOk result (self.new ≡ self.old ++ decimal number ∷ []) }
    {
        self.texts.push(number.to_string(self.alloc)?)?;
        Ok(())
    }

    /// Puts an interval.
    pub(crate) fn put_iv(&mut self, iv: Iv) -> Result<(), AllocError>
        ensures { OnOk result (self.new ≡ self.old ++ iv_text iv ∷ []) }
    {
        self.texts.push(iv.to_string(self.alloc)?)?;
        Ok(())
    }

    /// Puts intervals, each as a field.
    pub(crate) fn put_ivs(&mut self, ivs: &[Iv]) -> Result<(), AllocError>
        ensures { OnOk result (self.new ≡ self.old ++ map iv_text ivs.now) }
    {
        for iv in ivs {
            self.put_iv(*iv)?;
        }
        Ok(())
    }

    /// Puts so many empty fields.
    pub(crate) fn put_blanks(&mut self, count: usize) -> Result<(), AllocError>
        ensures { OnOk result (self.new ≡ self.old ++ replicate count []) }
    {
        for _ in 0..count {
            self.put("")?;
        }
        Ok(())
    }

    /// Puts them as a line behind a text.
    pub(crate) fn put_line(&self, text: &mut Vec<u8>) -> Result<(), AllocError>
        ensures { OnOk result (text.new.items ≡ text.old.items ++ row_text default_writer self.now) }
    {
        let line = record_line(self.alloc, self.texts.as_slice())?;
        text.extend_from_slice(line.as_slice())
    }
}
