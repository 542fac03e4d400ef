//! Arrays, as texts that grow by one item after the other.

ghost use Rattle.std.specs.Prelude.{◌≡◌, ◌++◌, ◌∷◌, [], ℕ, List, IfOk, OnOk, true, decimal};
ghost use Rattle.jc_printer.specs.Canon.{quoted};
ghost use Rattle.jc_answers.specs.JsonTexts.{array_text};
ghost use Rattle.jc_answers.specs.Parts.{HasItems, comma_after};

use crate::objects::{push_number, push_string};
use std::alloc::{AllocError, Global};

/// An array without its end.
#[derive(Drop)]
pub struct ArrayText {
    text: Vec<u8>,
    begun: bool,
}

impl ArrayText {
    /// An array without items.
    pub fn new(alloc: Global) -> Result<Self, AllocError>
        ensures { IfOk result (λ array. HasItems array []) }
    {
        let mut text = Vec::new(alloc);
        text.push(b'[')?;
        Ok(ArrayText { text, begun: false })
    }

    /// Appends a comma, unless the next item is the first, which then isn't the next any more.
    fn separate(&mut self) -> Result<(), AllocError>
        ensures text { OnOk result (self.new.text.items ≡ self.old.text.items ++ comma_after self.old.begun) }
        ensures begun { OnOk result (self.new.begun ≡ true) }
    {
        if !self.begun {
            self.begun = true;
            return Ok(());
        }
        self.text.push(b',')?;
        Ok(())
    }

    /// Appends an item, which is a value's text.
    pub fn push(&mut self, text: &[u8]) -> Result<(), AllocError>
        ensures { OnOk result ((ts : List (List ℕ))
            → HasItems self.old ts
            → HasItems self.new (ts ++ text.now ∷ [])) }
    {
        self.separate()?;
        self.text.extend_from_slice(text)
    }

    /// Appends an item, which is a string that isn't escaped yet.
    pub fn push_string(&mut self, s: &str) -> Result<(), AllocError>
        ensures { OnOk result ((ts : List (List ℕ))
            → HasItems self.old ts
            → HasItems self.new (ts ++ quoted s.now ∷ [])) }
    {
        self.separate()?;
        push_string(&mut self.text, s)
    }

    /// Appends an item, which is a number.
    pub fn push_number(&mut self, n: u64) -> Result<(), AllocError>
        ensures { OnOk result ((ts : List (List ℕ))
            → HasItems self.old ts
            → HasItems self.new (ts ++ decimal n ∷ [])) }
    {
        self.separate()?;
        push_number(&mut self.text, n)
    }

    /// The text of the array.
    pub fn end(self) -> Result<Vec<u8>, AllocError>
        ensures { IfOk result (λ text. (ts : List (List ℕ)) → HasItems self ts → text.items ≡ array_text ts) }
    {
        let mut text = self.text;
        text.push(b']')?;
        Ok(text)
    }
}
