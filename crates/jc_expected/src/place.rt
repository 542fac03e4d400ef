//! An offset of a text, and what could stand there.

ghost use Rattle.std.specs.Prelude.{◌≡◌, ℕ, List, Bool, IfOk, OnOk, filter, map};
ghost use Rattle.jc_expected.specs.Expected.{IsTest, IsExpected, words_but, told_if, numbers_told, kinds_told, words_told};
ghost use Rattle.jc_expected.specs.Appended.{Appends};

use crate::trying::{is_beginning, text_with};
use jc_answers::ArrayText;
use jc_scenario::laws;
use std::alloc::{AllocError, Global};

/// An offset of a text.
#[derive(Clone, Copy)]
struct Place<'a> {
    text: &'a [u8],
    at: usize,
}

impl<'a> Place<'a> {
    /// Whether a spelling goes on there.
    fn goes_on(&self, alloc: Global, spelling: &str) -> Result<bool, AllocError>
        ensures { IfOk result (λ b. (goes_on : List ℕ → Bool)
            → IsTest self.now.text.now self.now.at goes_on
            → b ≡ goes_on spelling.now) }
    {
        let tried = text_with(alloc, self.text, self.at, spelling)?;
        is_beginning(alloc, &tried)
    }

    /// Appends a name to the list, if a spelling goes on there.
    fn push(
        &self,
        alloc: Global,
        spelling: &str,
        name: &str,
        list: &mut ArrayText,
    ) -> Result<(), AllocError>
        ensures { OnOk result (Appends self.now.text.now self.now.at
            (λ goes_on. told_if (goes_on spelling.now) name.now) list.old list.new) }
    {
        if self.goes_on(alloc, spelling)? {
            return list.push_string(name);
        }
        Ok(())
    }

    /// Appends those spellings that go on there.
    fn push_those(
        &self,
        alloc: Global,
        spellings: &[&str],
        list: &mut ArrayText,
    ) -> Result<(), AllocError>
        ensures { OnOk result (Appends self.now.text.now self.now.at
            (λ goes_on. filter goes_on (map (λ s. s.now) spellings.now)) list.old list.new) }
    {
        for spelling in spellings {
            self.push(alloc, spelling, spelling, list)?;
        }
        Ok(())
    }

    /// The same, unless another word goes on there.
    fn push_but(
        &self,
        alloc: Global,
        other: &str,
        words: &[&str],
        list: &mut ArrayText,
    ) -> Result<(), AllocError>
        ensures { OnOk result (Appends self.now.text.now self.now.at
            (λ goes_on. words_but goes_on other.now (map (λ s. s.now) words.now)) list.old list.new) }
    {
        if self.goes_on(alloc, other)? {
            return Ok(());
        }
        self.push_those(alloc, words, list)
    }

    /// Appends the words that could stand there as themselves.
    fn push_words(&self, alloc: Global, list: &mut ArrayText) -> Result<(), AllocError>
        ensures { OnOk result (Appends self.now.text.now self.now.at words_told list.old list.new) }
    {
        self.push_but(alloc, "get", &["yield", "let", "doc"], list)?;
        let others = &[
            "get",
            "idx",
            "keys",
            "values",
            "insertAfter",
            "delete",
            "true",
            "false",
            "null",
        ];
        self.push_but(alloc, "let", others, list)?;
        let plain = &[
            "replica", "given", "schedule", "exec", "send", "recv", "take", "apply", "done",
        ];
        self.push_but(alloc, "x", plain, list)
    }

    /// Appends digits or numbers, where they could stand there.
    fn push_numbers(&self, alloc: Global, list: &mut ArrayText) -> Result<(), AllocError>
        ensures { OnOk result (Appends self.now.text.now self.now.at numbers_told list.old list.new) }
    {
        if self.goes_on(alloc, "0.5")? {
            return list.push_string("number");
        }
        self.push(alloc, "100", "digits", list)
    }

    /// Appends the kinds of tokens that could stand there.
    fn push_kinds(&self, alloc: Global, list: &mut ArrayText) -> Result<(), AllocError>
        ensures { OnOk result (Appends self.now.text.now self.now.at kinds_told list.old list.new) }
    {
        self.push(alloc, "x", "name", list)?;
        self.push_numbers(alloc, list)?;
        self.push(alloc, "\"\"", "string", list)
    }
}

/// The list of what could stand at an offset of a text. It tells something where a scenario's text is refused there,
/// since it doesn't fit or ends too early. Refused for want of memory alone.
pub fn expected(alloc: Global, text: &[u8], at: usize) -> Result<Vec<u8>, AllocError>
    ensures { IfOk result (λ list. IsExpected text.now at list.items) }
{
    // By these laws there is a test that tells what goes on.
    laws::scenario_else_fault();
    laws::scenario_or_fault();
    laws::one_fault();
    let place = Place { text, at };
    let mut list = ArrayText::new(alloc)?;
    place.push_words(alloc, &mut list)?;
    place.push_kinds(alloc, &mut list)?;
    let signs = &[".", ":=", "=", "(", ")", "[", "]", "{", ";", ",", "}"];
    place.push_those(alloc, signs, &mut list)?;
    list.end()
}
